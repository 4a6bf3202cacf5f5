//! What holds of neighbours: each call here does nothing, and its contract is a law.
ghost use Rattle.price_neighbours.specs.Laws.{LeastFewerIsLeast, NeighboursArePrices, NeighboursDiffer};

/// A section that some students take has a least greater price at which fewer take it.
pub fn least_fewer_is_least()
    ensures { LeastFewerIsLeast }
{}

/// A neighbour of prices that are at most the top has such prices.
pub fn neighbours_are_prices()
    ensures { NeighboursArePrices }
{}

/// No two neighbours have the same prices.
pub fn neighbours_differ()
    ensures { NeighboursDiffer }
{}
