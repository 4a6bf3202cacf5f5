// Whether bundles have only sections of a market.
ghost use Rattle.std.specs.Prelude.{◌≡◌, ◌↔◌, ◌<◌, ℕ, true, IsTrue, All, map};
ghost use Rattle.bundle_rules.specs.Bundles.{sections_of};
ghost use Rattle.market_units.specs.Members.{has};
ghost use Rattle.held_seats.specs.Floors.{AreBelow};

use bundle_rules::Bundle;
use market_units::SectionNo;

/// Whether each section of each bundle is one of the first so many.
pub fn are_below(sections: usize, bundles: &[Bundle]) -> bool
    ensures { IsTrue result ↔ AreBelow sections (map sections_of bundles.now) }
{
    each_is_below(sections, bundles)
}

fn each_is_below(sections: usize, bundles: &[Bundle]) -> bool
    ensures { IsTrue result
        ↔ All (λ bundle. (s : ℕ) → has (sections_of bundle) s ≡ true → s < sections) bundles.now }
{
    bundles.iter().all(|bundle| is_below(sections, bundle))
}

/// Whether each section of the bundle has an ordinal below this number of sections.
pub(crate) fn is_below(sections: usize, bundle: &Bundle) -> bool
    ensures { IsTrue result ↔ ((s : ℕ) → has (sections_of bundle.now) s ≡ true → s < sections) }
{
    all_below(sections, bundle.sections())
}

fn all_below(sections: usize, listed: &[SectionNo]) -> bool
    ensures { IsTrue result ↔ All (λ section. section.0 < sections) listed.now }
{
    listed
        .iter()
        .all(|section| usize::from(section.0) < sections)
}
