//! What holds of the elimination of oversubscription: each call here does nothing, and its contract
//! is a law.
ghost use Rattle.oversubscription_stage.specs.Laws.{RoundsRaise, EliminationEnds, SettledWithinSeats, OneElimination};

/// A round raises one price by at least 1, and no price passes the top.
pub fn rounds_raise()
    ensures { RoundsRaise }
{}

/// The elimination ends, from each start.
pub fn elimination_ends()
    ensures { EliminationEnds }
{}

/// It ends with no section over its seats.
pub fn settled_within_seats()
    ensures { SettledWithinSeats }
{}

/// There is one elimination from each start.
pub fn one_elimination()
    ensures { OneElimination }
{}
