// What stands at each place of a menu at one demand: its price, its credits, the places that it
// clashes with, and whether it may be taken alone; and which places what is left can pay for.
ghost use Rattle.std.specs.Prelude.{◌≡◌, ◌<◌, ◌≤◌, ◌↔◌, ◌⊎◌, ℕ, true, length, slice_index};
ghost use Rattle.std.specs.Int.{bit_at};
ghost use Rattle.bundle_rules.specs.Demand.{price_in};
ghost use Rattle.bundle_rules.specs.Menus.{credits_at, section_at, IsMenu};
ghost use Rattle.bundle_bounds.specs.Offers.{OfferData, price_at};
ghost use Rattle.bundle_bounds.specs.Views.{data_of};
ghost use Rattle.demand_oracle.specs.OpenWords.{IsWordOf, Clashes, IsAlone};
ghost use Rattle.demand_oracle.specs.PriceColumns.{column_of};

use crate::spot::Spot;
use crate::step::Step;
use crate::summed_node::SummedNode;
use crate::tables::{MOST_PLACES, PLACES, UNITS};
use crate::unit::Unit;
use bundle_bounds::{Offer, price_of_place};
use bundle_rules::Rows;
use market_units::Tokens;

// Rows by place, so that a search reads one number where it asks one thing. Bit q of a word stands
// for place q.
#[derive(Clone, Copy)]
pub(crate) struct Goods {
    // In tokens.
    pub(crate) prices: [u32; PLACES],
    pub(crate) credits: [u16; PLACES],
    // The places that clash with each place.
    pub(crate) clashes: [u64; PLACES],
    // The places whose sections may be taken alone.
    pub(crate) alone: u64,
    unit: Unit,
    // For each number of units the places whose prices have no more whole units; the last word has
    // all places.
    within: [u64; UNITS],
}

impl Goods {
    ghost use Rattle.demand_oracle.specs.AtPlaces.{IsGoods};

    /// The goods of an offer.
    pub(crate) fn of(offer: &Offer) -> Goods
        ensures goods { IsGoods (data_of offer.now) result }
        ensures menu { IsMenu offer.now.menu.now }
    {
        let menu = offer.menu;
        prove!(menu.len() <= MOST_PLACES);
        let unit = Unit::for_budget(offer.budget);
        Goods {
            prices: prices_of(offer),
            credits: credits_of(menu),
            clashes: clashes_of(menu),
            alone: alone(offer),
            unit,
            within: within_of(offer, unit),
        }
    }

    /// The places that so many tokens can pay for, and maybe some that cost less than a unit more.
    #[inline(always)]
    pub(crate) fn affordable(&self, tokens: u32) -> u64
        ensures { (offer : OfferData) → IsGoods offer self.now → (place : ℕ)
            → place < length offer.menu.places → price_at offer place ≤ tokens
            → bit_at result place ≡ 1 }
    {
        self.within[self.unit.last_column(Tokens(tokens))]
    }
}

// For each number of units the places whose prices have no more whole units; the last word has all
// places.
fn within_of(offer: &Offer, unit: Unit) -> [u64; UNITS]
    ensures { (p units : ℕ) → p < length offer.now.menu.now.places → units < 64
        → column_of unit.shift (price_at (data_of offer.now) p) ≤ units
        → bit_at (slice_index result units) p ≡ 1 }
{
    within_each(&by_column(offer, unit))
}

// For each number of units the places whose prices have so many whole units.
fn by_column(offer: &Offer, unit: Unit) -> [u64; UNITS]
    ensures { (place : ℕ) → place < length offer.now.menu.now.places
        → bit_at
        (slice_index result (column_of unit.shift (price_at (data_of offer.now) place))) place ≡ 1 }
{
    let mut words = [0; UNITS];
    for place in 0..offer.menu.len() {
        let price = price_of_place(offer.menu, offer.prices, place);
        let column = unit.last_column(Tokens(price));
        words[column] |= 1 << place;
    }
    words
}

// For each number of units the places of all words up to its own.
fn within_each(words: &[u64; UNITS]) -> [u64; UNITS]
    ensures { (column units place : ℕ) → column ≤ units → units < 64
        → bit_at (slice_index words.now column) place ≡ 1
        → bit_at (slice_index result units) place ≡ 1 }
{
    let mut all = [0; UNITS];
    let mut word = 0;
    for units in 0..UNITS {
        word |= words[units];
        all[units] = word;
    }
    all
}

// The price of each place.
fn prices_of(offer: &Offer) -> [u32; PLACES]
    ensures { (place : ℕ) → place < length offer.now.menu.now.places
        → slice_index result place
        ≡ price_in offer.now.prices.now (section_at offer.now.menu.now.places place) }
{
    let mut row = [0; PLACES];
    for place in 0..offer.menu.len() {
        row[usize::from(place)] = price_of_place(offer.menu, offer.prices, place);
    }
    row
}

// The credits of each place.
fn credits_of(menu: &Rows) -> [u16; PLACES]
    ensures { (place : ℕ) → place < length menu.now.places
        → slice_index result place ≡ credits_at menu.now.places place }
{
    let mut row = [0; PLACES];
    for place in 0..menu.len() {
        row[usize::from(place)] = menu.rated(place).credits;
    }
    row
}

// For each place the word of the places that clash with it.
fn clashes_of(menu: &Rows) -> [u64; PLACES]
    ensures { (place : ℕ) → place < length menu.now.places
        → IsWordOf (Clashes menu.now place) (length menu.now.places) (slice_index result place) }
{
    let on_menu = (1u64 << menu.len()) - 1;
    let mut words = [0; PLACES];
    for place in 0..menu.len() {
        // Bits past the last place do not count, and are cleared.
        words[usize::from(place)] = menu.clashes()[usize::from(place)] & on_menu;
    }
    words
}

// The word of the places whose sections may be taken alone.
fn alone(offer: &Offer) -> u64
    ensures { IsWordOf (IsAlone (data_of offer.now))
        (length offer.now.menu.now.places) result }
{
    let root = SummedNode::root();
    let mut word = 0;
    for place in 0..offer.menu.len() {
        let step = Step {
            offer,
            summed: &root,
            place,
        };
        let is_takable = step.may_take();
        word = with_bit(word, &Spot { offer, place }, is_takable);
    }
    word
}

// The word with the bit of a place set too, where that is asked.
fn with_bit(word: u64, spot: &Spot, is_set: bool) -> u64
    ensures { (p : ℕ) → (bit_at result p ≡ 1)
        ↔ ((bit_at word p ≡ 1) ⊎ ((p ≡ spot.now.place) × (is_set ≡ true))) }
{
    let place = spot.place;
    prove!(place < spot.offer.menu.len());
    if is_set { word | 1 << place } else { word }
}
