//! What holds of ranks and orders: each call here does nothing, and its contract is a law.
ghost use Rattle.budget_draw.specs.Laws.{AfterOrderIsOne, OneAfterOrder, RanksAreInOrder, RanksArePlaces};

/// A rank is a place among the students.
pub fn ranks_are_places()
    ensures { RanksArePlaces }
{}

/// A student that comes before another has the lesser rank.
pub fn ranks_are_in_order()
    ensures { RanksAreInOrder }
{}

/// The aftermarket's order has every student once, and none before one that goes before it.
pub fn after_order_is_one()
    ensures { AfterOrderIsOne }
{}

/// No two lists are orders of the aftermarket for the same budgets.
pub fn one_after_order()
    ensures { OneAfterOrder }
{}
