// What is asked, by the positions of a menu's search order: there each section is called by its
// position.
ghost use Rattle.std.specs.Prelude.{◌≡◌, ◌<◌, ◌↔◌, ℕ, [], ◌∷◌, None, Some, IfSome, IfNone, length};
ghost use Rattle.std.specs.FinSet as set;
ghost use Rattle.bundle_rules.specs.Demand.{price_in, HasPrices};
ghost use Rattle.bundle_rules.specs.Menus.{section_at};
ghost use Rattle.bundle_rules.specs.Ranks.{place_at, section_of};
ghost use Rattle.demand_oracle.specs.Names.{rank_given};
ghost use Rattle.bundle_bounds.specs.{Laws.IsTakable, Views.data_of};

use crate::asked::Asked;
use crate::tables::{MOST_PLACES, PLACES};
use bundle_bounds::{Offer, price_of_place};
use bundle_rules::{Bundle, Ranked};
use market_units::{SectionNo, SectionSet, Tokens};

/// The place of the menu at a position.
pub(crate) fn place_at(ranked: &Ranked, position: u8) -> u8
    requires { position < length ranked.now.menu.now.places }
    ensures place { result ≡ place_at ranked.now.order.now position }
    ensures on_menu { result < length ranked.now.menu.now.places }
{
    prove!(ranked.menu.len() <= MOST_PLACES);
    ranked.order[usize::from(position)]
}

/// The price of each position.
pub(crate) fn prices_in_order(ranked: &Ranked, offer: &Offer) -> [Tokens; PLACES]
    requires { ranked.now.menu.now ≡ offer.now.menu.now }
    ensures prices { HasPrices ranked.now.rows.now result }
    ensures each { (p : ℕ) → p < length ranked.now.menu.now.places
        → price_in result p
        ≡ price_in offer.now.prices.now (section_of ranked.now.menu.now ranked.now.order.now p) }
{
    prove!(ranked.rows.len() <= MOST_PLACES);
    let mut prices = [Tokens(0); PLACES];
    for position in 0..ranked.menu.len() {
        let place = place_at(ranked, position);
        prices[usize::from(position)] = Tokens(price_of_place(offer.menu, offer.prices, place));
    }
    prices
}

/// The positions of the allowed sections.
pub(crate) fn allowed_in_order(ranked: &Ranked, offer: &Offer) -> SectionSet
    requires { ranked.now.menu.now ≡ offer.now.menu.now }
    ensures { (p : ℕ) → p < length ranked.now.menu.now.places
        → set.contains result p
        ≡ set.contains offer.now.allowed.now (section_of ranked.now.menu.now ranked.now.order.now p) }
{
    let mut allowed = SectionSet::empty();
    for position in 0..ranked.menu.len() {
        let place = place_at(ranked, position);
        let section = offer.menu.rated(place).section;
        if offer.allowed.has(section) {
            allowed = allowed.with(SectionNo(u16::from(position)));
        }
    }
    allowed
}

/// The position of the given place.
pub(crate) fn given_in_order(ranked: &Ranked, asked: &Asked) -> Option<u8>
    requires { ranked.now.menu.now ≡ asked.now.offer.now.menu.now }
    ensures { result ≡ rank_given ranked.now.order.now asked.now.given }
{
    prove!(ranked.menu.len() <= MOST_PLACES);
    match asked.given {
        Some(place) => {
            let section = asked.offer.menu.rated(place).section;
            Some(ranked.position(section))
        }
        None => None,
    }
}

/// The positions whose sections the first bundle has, as bits, where one is told.
pub(crate) fn positions_of(ranked: &Ranked, first: Option<&Bundle>) -> Option<u64>
    ensures { IfNone first.entry (result ≡ None) }
{
    match first {
        Some(bundle) => Some(positions_in(ranked, bundle)),
        None => None,
    }
}

// The positions whose sections a bundle has, as bits.
fn positions_in(ranked: &Ranked, bundle: &Bundle) -> u64 {
    prove!(ranked.menu.len() <= MOST_PLACES);
    let mut word = 0;
    for position in 0..ranked.menu.len() {
        let place = place_at(ranked, position);
        let section = ranked.menu.rated(place).section;
        word |= u64::from(bundle.has(section)) << position;
    }
    word
}
