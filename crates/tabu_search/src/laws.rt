//! What holds of the search: each call here does nothing, and its contract is a law.
ghost use Rattle.tabu_search.specs.Laws.{SearchEnds, NotBothAreSearched, OneIsFound, OneSearchedError, VisitedArePrices};

/// The search finds prices, or finds none with some least error.
pub fn search_ends()
    ensures { SearchEnds }
{}

/// It never does both.
pub fn not_both_are_searched()
    ensures { NotBothAreSearched }
{}

/// It finds one vector of prices, with one error and one number of turns.
pub fn one_is_found()
    ensures { OneIsFound }
{}

/// Where it finds none, there is only one least error.
pub fn one_least_error()
    ensures { OneSearchedError }
{}

/// Each visited vector has a price for each section, each at most the top.
pub fn visited_are_prices()
    ensures { VisitedArePrices }
{}
