// Bundles of sections.
ghost use Rattle.std.specs.Prelude.{◌≡◌, ◌↔◌, ◌<◌, ◌≤◌, ◌-◌, ◌++◌, ◌∷◌, [], IsTrue, IsSome, IfSome, length, take, drop, replicate};
ghost use Rattle.market_units.specs.{Members.has, declared.limits.TheConstants.MAX_COURSES};
ghost use Rattle.bundle_rules.specs.Ordinals.{ordinals, IsBundle};
ghost use Rattle.bundle_rules.specs.Sets.{IsAscending, IsAscending-prop};
ghost use Rattle.std.specs.Prelude.{nat_eq};
ghost use Rattle.std.specs.Cmp.{on_equiv, partial_equiv_from_equiv};
ghost use Rattle.std.specs.Ordering.{on};
ghost use Rattle.std.specs.Cmp.Lexicographic.{nat_list_eq_equiv, pointwise};

use market_units::{MAX_COURSES, SectionNo};

const ROOM: usize = MAX_COURSES as usize;

/// At most 8 sections, ascending by ordinal.
#[derive(Clone, Copy, Debug)]
pub struct Bundle {
    // Ghost fields and no model, as in `Name` of `market_units`: nodes of searches hold bundles and
    // are passed by value more than once.
    sections: [SectionNo; ROOM],
    len: u8,
    ghost whole: { length sections ≡ MAX_COURSES },
    ghost short: { len ≤ MAX_COURSES },
    ghost ascending: { IsAscending (ordinals (take len sections)) } by { IsAscending-prop (ordinals (take len sections)) },

    // What stands past the sections is 0, so that bundles of the same sections are equal.
    ghost padded: { ordinals (drop len sections) ≡ replicate (MAX_COURSES - len) 0 },
}

impl Bundle {
    ghost use Rattle.bundle_rules.specs.Bundles.{sections_of};

    /// The bundle without sections.
    pub fn empty() -> Bundle
        ensures { sections_of result ≡ [] }
    {
        Bundle {
            sections: [SectionNo(0); ROOM],
            len: 0,
        }
    }

    /// The bundle of these sections, or `None` exactly where there are more than 8 or they are not
    /// strictly ascending.
    pub fn of(sections: &[SectionNo]) -> Option<Bundle>
        ensures some { IsSome result ↔ IsBundle (ordinals sections.now) }
        ensures value { IfSome result (λ bundle. sections_of bundle ≡ ordinals sections.now) }
    {
        if sections.len() > ROOM {
            return None;
        }
        let mut bundle = Bundle::empty();
        for section in sections {
            if !bundle.is_below(*section) {
                return None;
            }
            bundle = bundle.with(*section);
        }
        Some(bundle)
    }

    /// The sections, ascending.
    pub fn sections(&self) -> &[SectionNo]
        ensures value { ordinals result.now ≡ sections_of self.now }
        ensures bundle { IsBundle (sections_of self.now) }
    {
        &self.sections[..usize::from(self.len)]
    }

    /// Whether the section is in the bundle.
    pub fn has(&self, section: SectionNo) -> bool
        ensures { result ≡ has (sections_of self.now) section.0 }
    {
        is_among(self.sections(), section)
    }

    /// Whether each section of the bundle is below this one.
    pub fn is_below(&self, section: SectionNo) -> bool
        ensures { IsTrue result ↔ IsAscending (sections_of self.now ++ section.0 ∷ []) }
    {
        match self.sections().last() {
            Some(last) => last.0 < section.0,
            None => true,
        }
    }

    /// The bundle with one more section, above all of its own.
    #[must_use]
    pub fn with(self, section: SectionNo) -> Bundle
        requires room { length (sections_of self) < MAX_COURSES }
        requires above { IsAscending (sections_of self ++ section.0 ∷ []) }
        ensures { sections_of result ≡ sections_of self ++ section.0 ∷ [] }
    {
        let mut sections = self.sections;
        sections[usize::from(self.len)] = section;
        Bundle {
            sections,
            len: self.len + 1,
        }
    }
}

// Whether the section is one of these. Not by a search of std, which tests many places at once. The
// stages look through all bundles, each of at most eight sections, and in a market of 1,000
// students that search was a third of what the first thread did alone.
fn is_among(sections: &[SectionNo], section: SectionNo) -> bool
    ensures { result ≡ has (ordinals sections.now) section.0 }
{
    match sections {
        [] => false,
        [first, others @ ..] => first.0 == section.0 || is_among(others, section),
    }
}

impl PartialEq for Bundle {
    ghost use Rattle.bundle_rules.specs.Bundles.{sections_of};

    ghost eq = { on sections_of (pointwise nat_eq) };

    ghost laws = { partial_equiv_from_equiv (on_equiv sections_of nat_list_eq_equiv) };

    fn eq(&self, other: &Bundle) -> bool {
        self.sections() == other.sections()
    }
}

impl Eq for Bundle {
    ghost use Rattle.bundle_rules.specs.Bundles.{sections_of};

    ghost laws = { on_equiv sections_of nat_list_eq_equiv };
}
