// Sets of sections that take no memory.
ghost use Rattle.std.specs.Prelude.{◌≡◌, ◌<◌, ◌≤◌, ℕ, nat_lt};
ghost use Rattle.std.specs.FinSet as set;

use crate::{MAX_SECTIONS, SectionNo};
use std::marker::Model;

const WORDS: usize = 7;

/// A set of sections with ordinals below 400. Contracts see it as a finite set of these ordinals.
#[derive(Clone, Copy, Debug)]
pub struct SectionSet {
    words: [u64; WORDS],
}

impl Model for SectionSet {
    ghost use Rattle.std.specs.Ordering.{nat_cmp};
    ghost use Rattle.std.specs.FinSet as set;
    ghost use Rattle.std.specs.Coded.{coded_ℕ};
    ghost use Rattle.market_units.specs.SectionBits.{words_of-sections_of};
    ghost use Rattle.market_units.specs.Sections.{sections_of, words_of, IsWords};

    ghost Value = { set.FinSet nat_cmp };

    ghost coded = { set.code coded_ℕ };

    ghost view = { λ s. sections_of s.words };

    ghost invariant = { λ s. IsWords s.words };

    ghost inverse = { λ sections. record { words = words_of sections } };

    ghost inverse_ok = { λ s h i. record { words = words_of-sections_of s.words h i } };
}

impl SectionSet {
    /// No section.
    pub fn empty() -> SectionSet
        ensures { result ≡ set.empty }
    {
        SectionSet { words: [0; WORDS] }
    }

    /// The sections with ordinals below this number, which is at most 400.
    pub fn full(sections: u16) -> SectionSet
        requires { sections ≤ MAX_SECTIONS }
        ensures { (s : ℕ) → set.contains result s ≡ nat_lt s sections }
    {
        let mut all = SectionSet::empty();
        for section in 0..sections {
            all = all.with(SectionNo(section));
        }
        all
    }

    /// Whether the section, which is below 400, is in the set.
    pub fn has(&self, section: SectionNo) -> bool
        requires { section.0 < MAX_SECTIONS }
        ensures { result ≡ set.contains self.now section.0 }
    {
        let word = self.words[usize::from(section.0 / 64)];
        (word >> (section.0 % 64)) & 1 == 1
    }

    /// The set with this section, which is below 400, and all that were in it.
    #[must_use]
    pub fn with(self, section: SectionNo) -> SectionSet
        requires { section.0 < MAX_SECTIONS }
        ensures { result ≡ set.insert self section.0 }
    {
        let mut words = self.words;
        words[usize::from(section.0 / 64)] |= 1 << (section.0 % 64);
        SectionSet { words }
    }

    /// The set without this section, which is below 400, and with all others that were in it.
    #[must_use]
    pub fn without(self, section: SectionNo) -> SectionSet
        requires { section.0 < MAX_SECTIONS }
        ensures { result ≡ set.remove self section.0 }
    {
        let mut words = self.words;
        words[usize::from(section.0 / 64)] &= !(1 << (section.0 % 64));
        SectionSet { words }
    }
}
