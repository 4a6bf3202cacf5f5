//! What holds of a section's own price: each call here does nothing, and its contract is a law.
ghost use Rattle.own_price.specs.Laws.{BestWithoutStays, CountFalls, NoneAtTop, OneLeastPrice};

/// A best bundle that lacks a section stays the best where only that section's price is raised.
pub fn best_without_stays()
    ensures { BestWithoutStays }
{}

/// A section's count never rises with its own price.
pub fn count_falls()
    ensures { CountFalls }
{}

/// Nobody takes a section at the top.
pub fn none_at_top()
    ensures { NoneAtTop }
{}

/// At most one price of a section is the least.
pub fn one_least_price()
    ensures { OneLeastPrice }
{}
