// One student's adjustments of pairs of sections.
ghost use Rattle.std.specs.Prelude.{◌≡◌, ◌≤◌, ◌<◌, ◌==◌, None, Some, not, nat_lt, ◌&&◌, nat_le, map, if◌then◌else◌, unsigned_abs, IfOk};
ghost use Rattle.std.specs.List.{position};
ghost use Rattle.std.specs.Ordering.{is_eq, is_le};
ghost use Rattle.std.specs.Vec.{vec_capacity};
ghost use Rattle.market_units.specs.declared.limits.TheConstants.{MAX_PAIRS};
ghost use Rattle.preference_desk.specs.Places.{place_in, stands};
ghost use Rattle.preference_desk.specs.Rows.{ArePairs, pair_entry};
ghost use Rattle.preference_desk.specs.StudentPreferences.{pair_cmp};

use crate::rows;
use crate::two_sections::TwoSections;
use market_units::{MAX_ADJUSTMENT, MAX_PAIRS, NoMemory, SectionNo};
use std::alloc::Global;

/// The adjustments of one student, pair by pair, in room that was taken once.
#[derive(Drop)]
pub(crate) struct Pairs {
    // Ascending by the first section and then by the second.
    pub items: Vec<(SectionNo, SectionNo, i16)>,
    ghost kept: { ArePairs items.items },
    ghost room: { MAX_PAIRS ≤ vec_capacity items },
}

impl Pairs {
    ghost use Rattle.std.specs.FinMap.{empty, contains_key, len};
    ghost use Rattle.preference_desk.specs.{PairsView.pairs_in, StudentPreferences.with_pair};

    /// No adjustments, with room for as many as a student may have. The only error is that memory
    /// was not given.
    pub(crate) fn new(alloc: Global) -> Result<Pairs, NoMemory>
        ensures { IfOk result (λ pairs. pairs_in pairs ≡ empty) }
    {
        Ok(Pairs {
            items: Vec::with_capacity(alloc, MAX_PAIRS)?,
        })
    }

    /// The pair's adjustment becomes this, and 0 takes it out; `false`, and nothing changes, where
    /// there is no room for one more.
    pub(crate) fn set(&mut self, sections: TwoSections, n: i16) -> bool
        requires small { unsigned_abs n ≤ unsigned_abs MAX_ADJUSTMENT }
        ensures room { result
            ≡ not
            (nat_lt 0 (unsigned_abs n)
            && not (contains_key (pairs_in self.old) (sections.lower.0, sections.higher.0))
            && nat_le MAX_PAIRS (len (pairs_in self.old))) }
        ensures set { pairs_in self.new
            ≡ (if result
            then with_pair (pairs_in self.old) (sections.lower.0, sections.higher.0) n
            else pairs_in self.old) }
    {
        let place = place_of(&self.items, sections.lower, sections.higher);
        let stands = stands_at(&self.items, place, sections.lower, sections.higher);
        let entry = adjusted(sections.lower, sections.higher, n);
        rows::write(&mut self.items, MAX_PAIRS, place, stands, entry)
    }

    /// Takes out all adjustments; the room stays.
    pub(crate) fn clear(&mut self)
        ensures { pairs_in self.new ≡ empty }
    {
        self.items.clear();
    }
}

// The entry that an adjustment makes of its pair; an adjustment of 0 makes none.
fn adjusted(first: SectionNo, second: SectionNo, n: i16) -> Option<(SectionNo, SectionNo, i16)>
    ensures { result ≡ (if unsigned_abs n == 0 then None else Some (first, second, n)) }
{
    if n == 0 {
        return None;
    }
    Some((first, second, n))
}

// The place of the pair among those that are adjusted, or of the next one.
fn place_of(items: &[(SectionNo, SectionNo, i16)], first: SectionNo, second: SectionNo) -> usize
    ensures { result ≡ place_in pair_cmp (first.0, second.0) (map pair_entry items.now) }
{
    match find_from(items, first, second) {
        Some(place) => place,
        None => items.len(),
    }
}

fn find_from(
    items: &[(SectionNo, SectionNo, i16)],
    first: SectionNo,
    second: SectionNo,
) -> Option<usize>
    ensures { result
        ≡ position (λ adjusted. is_le (pair_cmp (first.0, second.0) (pair_entry adjusted).0))
        items.now }
{
    items
        .iter()
        .position(|adjusted| is_up_to(first, second, adjusted))
}

// Whether the pair stands before the adjusted one, or is that pair.
fn is_up_to(first: SectionNo, second: SectionNo, adjusted: &(SectionNo, SectionNo, i16)) -> bool
    ensures { result ≡ is_le (pair_cmp (first.0, second.0) (pair_entry adjusted.now).0) }
{
    first.0 < adjusted.0.0 || first.0 == adjusted.0.0 && second.0 <= adjusted.1.0
}

fn stands_at(
    items: &[(SectionNo, SectionNo, i16)],
    place: usize,
    first: SectionNo,
    second: SectionNo,
) -> bool
    requires { place ≡ place_in pair_cmp (first.0, second.0) (map pair_entry items.now) }
    ensures { result ≡ stands pair_cmp (first.0, second.0) (map pair_entry items.now) }
{
    place < items.len() && is_pair(first, second, &items[place])
}

fn is_pair(first: SectionNo, second: SectionNo, adjusted: &(SectionNo, SectionNo, i16)) -> bool
    ensures { result ≡ is_eq (pair_cmp (first.0, second.0) (pair_entry adjusted.now).0) }
{
    first.0 == adjusted.0.0 && second.0 == adjusted.1.0
}
