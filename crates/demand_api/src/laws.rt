//! What holds of demand: each call here does nothing, and its contract is a law.
ghost use Rattle.demand_api.specs.Laws.{BestStays, TopIsEnough, DemandsByTop, CountsByTop, ErrorsByTop};

/// A best bundle that is still affordable stays the best where no rated section is cheaper: what is
/// forgone was worse before, and nothing new became affordable.
pub fn best_stays()
    ensures { BestStays }
{}

/// Prices above the budget act as any other such price.
pub fn top_is_enough()
    ensures { TopIsEnough }
{}

/// Prices above the top act as the top: each student takes the same.
pub fn demands_by_top()
    ensures { DemandsByTop }
{}

/// Prices above the top act as the top: each section has the same count.
pub fn counts_by_top()
    ensures { CountsByTop }
{}

/// Prices above the top act as the top: the clearing error is the same.
pub fn errors_by_top()
    ensures { ErrorsByTop }
{}
