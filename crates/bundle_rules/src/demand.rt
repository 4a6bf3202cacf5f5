// What a student takes at given prices, by trying every choice.
ghost use Rattle.std.specs.Prelude.{◌≡◌, ◌↔◌, ◌<◌, ◌≤◌, ◌*◌, ◌++◌, ◌∷◌, [], IsTrue, IfSome, IfNone, length, map, All};
ghost use Rattle.std.specs.FinSet as set;
ghost use Rattle.market_units.specs.Totals.{total};
ghost use Rattle.bundle_rules.specs.Bundles.{sections_of};
ghost use Rattle.bundle_rules.specs.Demand.{price_in, IsPriced, ArePriced, HasPrices, IsChoice, IsBest};
ghost use Rattle.bundle_rules.specs.{Extensions.IsBestExtension, Menus.wishes_of};
ghost use Rattle.bundle_rules.specs.{Ordinals.ordinals, Sets.IsAscending, Wishes.IsFeasible};

use crate::{Bundle, Menu, Rated, feasible, prefers};
use market_units::{
    MAX_COURSES, MAX_PRICE, MAX_RATINGS, MAX_SECTIONS, SectionNo, SectionSet, Tokens,
};

// At most this many places are on a menu.
const PLACES: u8 = MAX_RATINGS as u8;

/// Whether there is a price for each section of the menu, each at most 1,000,001: what `best_plain`
/// needs.
pub fn has_prices(menu: &Menu, prices: &[Tokens]) -> bool
    ensures { IsTrue result ↔ HasPrices menu.now prices.now }
{
    all_priced(menu.places(), prices)
}

fn all_priced(places: &[Rated], prices: &[Tokens]) -> bool
    ensures { IsTrue result ↔ ArePriced places.now prices.now }
{
    match places {
        [] => true,
        [rated, more @ ..] => is_priced(rated.section, prices) && all_priced(more, prices),
    }
}

fn is_priced(section: SectionNo, prices: &[Tokens]) -> bool
    ensures { IsTrue result ↔ IsPriced prices.now section.0 }
{
    match prices.get(usize::from(section.0)) {
        Some(price) => price.0 <= MAX_PRICE,
        None => false,
    }
}

/// The best bundle: the feasible one of allowed sections, of price sum at most the budget, that is
/// preferred to every other such bundle. It tries them all, without memory of its own. There is a
/// price for each section of the menu, each at most 1,000,001.
pub fn best_plain(menu: &Menu, prices: &[Tokens], budget: Tokens, allowed: &SectionSet) -> Bundle
    requires { HasPrices menu.now prices.now }
    ensures { IsBest (wishes_of menu.now) (price_in prices.now) budget.0 (set.contains allowed.now)
        (sections_of result) }
{
    let terms = Terms {
        menu,
        prices,
        budget,
        allowed,
    };
    best_from(&terms, menu.places(), Bundle::empty())
}

// A menu at given prices, with a budget and the sections that may be taken.
#[derive(Clone, Copy)]
struct Terms<'t> {
    menu: &'t Menu,
    prices: &'t [Tokens],
    budget: Tokens,
    allowed: &'t SectionSet,
    ghost priced: { HasPrices menu.now prices.now },
}

// The best of the choices that are these sections and some of the later ones.
fn best_from(terms: &Terms, later: &[Rated], chosen: Bundle) -> Bundle
    requires chosen { IsChoice (wishes_of terms.now.menu.now) (price_in terms.now.prices.now)
        terms.now.budget.0 (set.contains terms.now.allowed.now) (sections_of chosen) }
    requires later { IsAscending (sections_of chosen ++ map (λ rated. rated.section.0) later.now) }
    ensures { IsBestExtension (wishes_of terms.now.menu.now) (price_in terms.now.prices.now)
        terms.now.budget.0 (set.contains terms.now.allowed.now) (sections_of chosen)
        (map (λ rated. rated.section.0) later.now) (sections_of result) }
{
    prove!(terms.menu.len() <= PLACES);
    if chosen.sections().len() >= usize::from(terms.menu.courses()) {
        return chosen;
    }
    match later {
        [] => chosen,
        [rated, more @ ..] => {
            let without = best_from(terms, more, chosen);
            match extended(terms, chosen, rated.section) {
                Some(wider) => {
                    let with_it = best_from(terms, more, wider);
                    if prefers(terms.menu, &with_it, &without) {
                        with_it
                    } else {
                        without
                    }
                }
                None => without,
            }
        }
    }
}

// The bundle with one more section, where that is a choice.
fn extended(terms: &Terms, chosen: Bundle, section: SectionNo) -> Option<Bundle>
    requires room { length (sections_of chosen) < MAX_COURSES }
    requires above { IsAscending (sections_of chosen ++ section.0 ∷ []) }
    ensures value { IfSome result
        (λ wider. sections_of wider ≡ sections_of chosen ++ section.0 ∷ []) }
    ensures choice { IfSome result
        (λ wider. IsChoice (wishes_of terms.now.menu.now) (price_in terms.now.prices.now)
        terms.now.budget.0 (set.contains terms.now.allowed.now) (sections_of wider)) }
    ensures none { IfNone result
        (¬ IsChoice (wishes_of terms.now.menu.now) (price_in terms.now.prices.now)
        terms.now.budget.0 (set.contains terms.now.allowed.now)
        (sections_of chosen ++ section.0 ∷ [])) }
{
    let wider = chosen.with(section);
    if is_choice(terms, &wider) {
        Some(wider)
    } else {
        None
    }
}

// Whether a bundle is feasible, within the budget and allowed.
fn is_choice(terms: &Terms, bundle: &Bundle) -> bool
    ensures { IsTrue result
        ↔ IsChoice (wishes_of terms.now.menu.now) (price_in terms.now.prices.now)
        terms.now.budget.0 (set.contains terms.now.allowed.now) (sections_of bundle.now) }
{
    prove!(terms.menu.len() <= PLACES);
    if !feasible(terms.menu, bundle) {
        return false;
    }
    if price_of(terms.prices, bundle.sections()) > terms.budget.0 {
        return false;
    }
    all_allowed(terms.allowed, bundle.sections())
}

/// What these sections cost together, in tokens. There is a price for each, at most 1,000,001, and
/// there are at most 8 of them.
pub fn price_of(prices: &[Tokens], sections: &[SectionNo]) -> u32
    requires priced { All (λ section. IsPriced prices.now section.0) sections.now }
    requires few { length sections.now ≤ MAX_COURSES }
    ensures value { result ≡ total (price_in prices.now) (ordinals sections.now) }
    ensures high { result ≤ MAX_PRICE * length sections.now }
{
    match sections {
        [] => 0,
        [section, more @ ..] => prices[usize::from(section.0)].0 + price_of(prices, more),
    }
}

/// Whether each of these sections is an allowed one. Their ordinals are below 400.
pub fn all_allowed(allowed: &SectionSet, sections: &[SectionNo]) -> bool
    requires { All (λ section. section.0 < MAX_SECTIONS) sections.now }
    ensures { IsTrue result
        ↔ All (λ section. IsTrue (set.contains allowed.now section.0)) sections.now }
{
    sections.iter().all(|section| allowed.has(*section))
}
