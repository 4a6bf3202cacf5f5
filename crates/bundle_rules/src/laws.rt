//! What holds of preference and demand: each call here does nothing, and its contract is a law.
ghost use Rattle.bundle_rules.specs.Laws.{AheadIsTheFirstDifference, BestByAgreement, BestByBits, BestIsTheBest, BestOfAll, BestWithASection, EqualSectionsEqualBundles, SetsAreBits, StrictPreference, UniqueDemand};

/// Preference is a strict total order of sets of sections: no set is preferred to itself, what is
/// preferred to a preferred set is preferred, and of two different sets one is preferred.
pub fn preference_is_strict()
    ensures { StrictPreference }
{}

/// Exactly one set is the best bundle, for every menu, prices, budget and allowed set.
pub fn unique_demand()
    ensures { UniqueDemand }
{}

/// The value `best` of the definitions is the best bundle, and whatever is the best bundle is that
/// value.
pub fn best_is_the_best()
    ensures { BestIsTheBest }
{}

/// A set of rated sections and its bits, one for each place of the menu, say the same.
pub fn sets_are_bits()
    ensures { SetsAreBits }
{}

/// The best bundle is the one whose bits are the best.
pub fn best_by_bits()
    ensures { BestByBits }
{}

/// Wishes that agree on what is rated have the same best bundles: nothing else counts.
pub fn agreeing_wishes_have_one_best()
    ensures { BestByAgreement }
{}

/// Two bundles of equal sections are equal.
pub fn equal_sections_equal_bundles()
    ensures { EqualSectionsEqualBundles }
{}

/// Where every bundle is wanted, the best of the wanted ones is the best bundle.
pub fn best_of_all()
    ensures { BestOfAll }
{}

/// At most one bundle is the best with a given section, and one is exactly where some choice has
/// the section, which is exactly where the section alone is a choice.
pub fn best_with_a_section()
    ensures { BestWithASection }
{}

/// `is_ahead` tells whether the lowest place on which two ascending lists differ is in the first,
/// below the limit.
pub fn ahead_is_the_first_difference()
    ensures { AheadIsTheFirstDifference }
{}
