//! What holds of the search and of what bounds it: each call here does nothing, and its contract is
//! a law.
ghost use Rattle.demand_oracle.specs.Laws.{FirstWithinIsBest, SearchFindsTheBest, OwnNumbersAreNames, ReachIsSound, ReachWithinIsSound};

/// A search from takable wanted bundles that prunes a node only where each takable wanted bundle
/// that completes it is kept, or as many are kept as may be and the last of them is preferred to it,
/// leaves, where it leaves them in order, bundles that are preferred to all other wanted ones, and
/// the first is the best: whichever are wanted, and whatever names decide between bundles of one
/// utility.
pub fn search_finds_the_best()
    ensures { SearchFindsTheBest }
{}

/// Where each section is called by its own number, that is the best bundle as the demand knows it.
pub fn own_numbers_are_names()
    ensures { OwnNumbersAreNames }
{}

/// A million times the utility of each takable bundle that completes a node is at most what can be
/// reached from it.
pub fn reach_is_sound()
    ensures { ReachIsSound }
{}

/// The same, where what can be added is of places that cost no more whole units than are left of
/// the budget.
pub fn reach_within_is_sound()
    ensures { ReachWithinIsSound }
{}

/// Where no price on the menu is lower than before, the first of the best bundles before that is
/// still affordable is the best.
pub fn first_within_is_best()
    ensures { FirstWithinIsBest }
{}
