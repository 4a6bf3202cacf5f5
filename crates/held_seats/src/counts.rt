// Which sections are free.
ghost use Rattle.std.specs.Prelude.{◌≡◌, ◌<◌, ◌≤◌, ◌||◌, ℕ, All, length, nat_lt, slice_index, if◌then◌else◌};
ghost use Rattle.std.specs.FinSet as set;
ghost use Rattle.market_units.specs.{Members.has, declared.limits.TheConstants.MAX_SECTIONS};
ghost use Rattle.bundle_rules.specs.Ordinals.{ordinals};

use market_units::{SectionNo, SectionSet};

/// How many students hold each section, and how many seats it has, by ordinal. There are at most
/// 400 sections.
#[derive(Clone, Copy)]
pub(crate) struct Filled<'a> {
    pub(crate) counts: &'a [u32],
    pub(crate) seats: &'a [u16],
    ghost few: { length seats.now ≤ MAX_SECTIONS },
    ghost same: { length counts.now ≡ length seats.now },
}

/// The sections that have a free seat: fewer students hold them than they have seats.
pub(crate) fn free_sections(filled: &Filled) -> SectionSet
    ensures { (s : ℕ)
        → set.contains result s
        ≡ nat_lt (slice_index filled.now.counts.now s) (slice_index filled.now.seats.now s) }
{
    let Filled { counts, seats } = *filled;
    let mut free = SectionSet::empty();
    for place in 0..seats.len() {
        if counts[place] < u32::from(seats[place]) {
            free = free.with(SectionNo(place as u16));
        }
    }
    free
}

/// The sections with a free seat, where only the counts of the listed sections have changed since
/// the given set was right. The other sections are taken over from the set.
pub(crate) fn freed(free: SectionSet, filled: &Filled, sections: &[SectionNo]) -> SectionSet
    requires { All (λ section. section.0 < length filled.now.seats.now) sections.now }
    ensures { (s : ℕ)
        → set.contains result s
        ≡ (if has (ordinals sections.now) s
        then nat_lt (slice_index filled.now.counts.now s) (slice_index filled.now.seats.now s)
        else set.contains free s) }
{
    match sections {
        [] => free,
        [section, more @ ..] => {
            let rest = freed(free, filled, more);
            let place = usize::from(section.0);
            let Filled { counts, seats } = *filled;
            if counts[place] < u32::from(seats[place]) {
                rest.with(*section)
            } else {
                rest.without(*section)
            }
        }
    }
}

/// The set with each listed section put in. One that is in it already changes nothing.
pub(crate) fn with_all(free: SectionSet, sections: &[SectionNo]) -> SectionSet
    requires { All (λ section. section.0 < MAX_SECTIONS) sections.now }
    ensures { (s : ℕ)
        → set.contains result s ≡ (has (ordinals sections.now) s || set.contains free s) }
{
    match sections {
        [] => free,
        [section, more @ ..] => with_all(free, more).with(*section),
    }
}
