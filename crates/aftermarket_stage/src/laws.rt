//! What holds of the aftermarket: each call here does nothing, and its contract is a law.
ghost use Rattle.aftermarket_stage.specs.Laws.{ChangesArePreferred, AftermarketEnds, OneAftermarket, StaysWithinSeats};

/// A turn changes nothing, or it is to a preferred bundle: the held one stays allowed and
/// affordable.
pub fn changes_are_preferred()
    ensures { ChangesArePreferred }
{}

/// So the aftermarket ends.
pub fn aftermarket_ends()
    ensures { AftermarketEnds }
{}

/// There is one aftermarket from each start.
pub fn one_aftermarket()
    ensures { OneAftermarket }
{}

/// No section exceeds its seats after any turn.
pub fn stays_within_seats()
    ensures { StaysWithinSeats }
{}
