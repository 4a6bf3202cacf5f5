// One more section in a bundle.
ghost use Rattle.std.specs.Prelude.{◌≡◌, ◌<◌, ◌≤◌, ◌+◌, ◌++◌, false, length};
ghost use Rattle.market_units.specs.{Members.has, declared.limits.TheConstants.MAX_COURSES};
ghost use Rattle.bundle_rules.specs.{Bundles.sections_of, Ordinals.ordinals, Ranks.put, Sets.IsAscending};

use crate::Bundle;
use market_units::SectionNo;

impl Bundle {
    /// The bundle with one more section, wherever that stands among its own.
    #[must_use]
    pub fn put(self, section: SectionNo) -> Bundle
        requires room { length (sections_of self) < MAX_COURSES }
        requires other { has (sections_of self) section.0 ≡ false }
        ensures { sections_of result ≡ put section.0 (sections_of self) }
    {
        put_among(Bundle::empty(), self.sections(), section)
    }
}

// The front with these sections behind it.
fn with_all(front: Bundle, sections: &[SectionNo]) -> Bundle
    requires room { length (sections_of front) + length sections.now ≤ MAX_COURSES }
    requires above { IsAscending (sections_of front ++ ordinals sections.now) }
    ensures { sections_of result ≡ sections_of front ++ ordinals sections.now }
{
    match sections {
        [] => front,
        [first, more @ ..] => with_all(front.with(*first), more),
    }
}

// The front with these sections behind it, and one more section in its place among them.
fn put_among(front: Bundle, sections: &[SectionNo], section: SectionNo) -> Bundle
    requires room { length (sections_of front) + length sections.now < MAX_COURSES }
    requires above { IsAscending (sections_of front ++ put section.0 (ordinals sections.now)) }
    ensures { sections_of result ≡ sections_of front ++ put section.0 (ordinals sections.now) }
{
    match sections {
        [] => front.with(section),
        [first, more @ ..] => {
            if section.0 < first.0 {
                return with_all(front.with(section), sections);
            }
            put_among(front.with(*first), more, section)
        }
    }
}
