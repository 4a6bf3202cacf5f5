// What the sections of a menu are called, and which of two bundles of one utility stands first.
ghost use Rattle.std.specs.Prelude.{◌≡◌, ◌↔◌, ◌<◌, ℕ, IsTrue, true, All, bit_and, length, slice_index};
ghost use Rattle.std.specs.Int.{bit_at};
ghost use Rattle.market_units.specs.Members.{has};
ghost use Rattle.market_units.specs.declared.limits.TheConstants.{MAX_RATINGS};
ghost use Rattle.bundle_rules.specs.Ranks.{place_at};
ghost use Rattle.demand_oracle.specs.Names.{HoldsNames, LeadsWord, name_of};

use crate::renaming::place_at;
use crate::tables::{MOST_PLACES, PLACES};
use bundle_rules::Ranked;

/// The names of a menu's sections, which decide between bundles of one utility, and for each place
/// the places whose sections' names stand before its own, as bits of a word.
#[derive(Clone, Copy)]
pub struct Names<'n> {
    pub(crate) order: &'n [u8],
    pub(crate) before: [u64; PLACES],
}

impl Names<'_> {
    /// The names of positions: the places that stand there.
    pub(crate) fn of<'n>(ranked: &Ranked<'n>) -> Names<'n>
        ensures names { name_of result ≡ place_at ranked.now.order.now }
        ensures holds { HoldsNames ranked.now.rows.now result }
    {
        prove!(ranked.menu.len() <= MOST_PLACES);
        prove!(ranked.rows.len() <= MOST_PLACES);
        let at = positions_by_place(ranked);
        Names {
            order: ranked.order,
            before: words_before(ranked, &at),
        }
    }

    /// Whether chosen places, of which the first word is, stand first before all that has no other
    /// places than those of the second: one of them is not in it, and its name stands before those
    /// of all that it has and they lack.
    pub(crate) fn stand_first(&self, chosen: &[u8], own: u64, word: u64) -> bool
        requires places { All (λ place. place < MAX_RATINGS) chosen.now }
        requires own { (p : ℕ) → (bit_at own p ≡ 1) ↔ (has chosen.now p ≡ true) }
        ensures { IsTrue result ↔ LeadsWord self.now.before chosen.now word }
    {
        let others = word & !own;
        self.one_leads(chosen, word, others)
    }

    // Whether one of these places is not in the first word, and no place of the second is before it.
    fn one_leads(&self, places: &[u8], word: u64, others: u64) -> bool
        requires { All (λ place. place < MAX_RATINGS) places.now }
        ensures { IsTrue result
            ↔ ((p : ℕ) × (has places.now p ≡ true) × (bit_at word p ≡ 0)
            × (bit_and others (slice_index self.now.before p) ≡ 0)) }
    {
        match places {
            [] => false,
            [place, more @ ..] => {
                let is_out = (word >> place) & 1 == 0;
                if is_out && others & self.before[usize::from(*place)] == 0 {
                    return true;
                }
                self.one_leads(more, word, others)
            }
        }
    }
}

// The position of each place.
fn positions_by_place(ranked: &Ranked) -> [u8; PLACES]
    ensures { (p : ℕ) → p < length ranked.now.menu.now.places
        → slice_index result (place_at ranked.now.order.now p) ≡ p }
{
    let mut at = [0; PLACES];
    for position in 0..ranked.menu.len() {
        let place = place_at(ranked, position);
        at[usize::from(place)] = position;
    }
    at
}

// For each position the word of those whose places stand before its own.
fn words_before(ranked: &Ranked, at: &[u8; PLACES]) -> [u64; PLACES]
    requires { (p : ℕ) → p < length ranked.now.menu.now.places
        → slice_index at.now (place_at ranked.now.order.now p) ≡ p }
    ensures { (p q : ℕ) → p < length ranked.now.menu.now.places
        → q < length ranked.now.menu.now.places
        → (bit_at (slice_index result p) q ≡ 1)
        ↔ (place_at ranked.now.order.now q < place_at ranked.now.order.now p) }
{
    let mut before = [0; PLACES];
    let mut earlier = 0u64;
    for place in 0..ranked.menu.len() {
        let position = at[usize::from(place)];
        before[usize::from(position)] = earlier;
        earlier |= 1 << position;
    }
    before
}
