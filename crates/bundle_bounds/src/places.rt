// What a place costs, and how it goes with chosen ones.
ghost use Rattle.std.specs.Prelude.{◌≡◌, ◌<◌, ◌≤◌, ◌*ℤ◌, ◌≤ℤ◌, neg_ℤ, pos, not, length};
ghost use Rattle.std.specs.List.{list_all};
ghost use Rattle.market_units.specs.Totals.{signed_total};
ghost use Rattle.bundle_rules.specs.Demand.{price_in, HasPrices};
ghost use Rattle.bundle_rules.specs.Menus.{section_at, adjustment_in, clash_in};
ghost use Rattle.bundle_bounds.specs.Offers.{AreOnMenu};

use bundle_rules::Rows;
use market_units::{MAX_ADJUSTMENT, MAX_COURSES, MAX_PRICE, Tokens};

/// The price of the section at a place of the menu, in tokens. There is a price for each section of
/// the menu, each at most 1,000,001.
pub fn price_of_place(menu: &Rows, prices: &[Tokens], place: u8) -> u32
    requires prices { HasPrices menu.now prices.now }
    requires on_menu { place < length menu.now.places }
    ensures value { result ≡ price_in prices.now (section_at menu.now.places place) }
    ensures high { result ≤ MAX_PRICE }
{
    prices[usize::from(menu.rated(place).section.0)].0
}

/// Whether the place clashes with none of the chosen ones.
pub fn is_apart(menu: &Rows, chosen: &[u8], place: u8) -> bool
    requires on_menu { AreOnMenu menu.now chosen.now }
    requires place { place < length menu.now.places }
    ensures { result ≡ list_all (λ other. not (clash_in menu.now.clashes place other)) chosen.now }
{
    chosen.iter().all(|other| !menu.clash(place, *other))
}

/// What a place adds to the utility of at most 8 chosen ones by adjustments of pairs.
pub fn adjustments_with(menu: &Rows, chosen: &[u8], place: u8) -> i32
    requires on_menu { AreOnMenu menu.now chosen.now }
    requires place { place < length menu.now.places }
    requires few { length chosen.now ≤ MAX_COURSES }
    ensures value { result
        ≡ signed_total (λ other. adjustment_in menu.now.pairs other place) chosen.now }
    ensures low { neg_ℤ (MAX_ADJUSTMENT *ℤ pos (length chosen.now)) ≤ℤ result }
    ensures high { result ≤ℤ (MAX_ADJUSTMENT *ℤ pos (length chosen.now)) }
{
    match chosen {
        [] => 0,
        [other, more @ ..] => {
            i32::from(menu.adjustment(*other, place)) + adjustments_with(menu, more, place)
        }
    }
}
