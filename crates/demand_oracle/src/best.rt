// The best bundles of a student, in order.
ghost use Rattle.std.specs.Prelude.{◌≡◌, ◌≤◌, ℕ, List, true, IfSome, length, map};
ghost use Rattle.market_units.specs.Members.{has};
ghost use Rattle.bundle_rules.specs.Bundles.{sections_of};
ghost use Rattle.bundle_rules.specs.Demand.{price_in, IsPriced};
ghost use Rattle.demand_oracle.specs.Bests.{IsAmong, IsFirstWithin};

use bundle_rules::{Bundle, Menu, price_of};
use market_units::Tokens;

/// How many bundles are kept at most. Shorter and longer lists spare fewer searches, or cost more
/// each.
pub const MOST_KEPT: usize = 8;

/// At most eight bundles, as `best_few` finds them: the most preferred first, and no other one
/// that may be chosen is preferred to one of them.
#[derive(Clone, Copy)]
pub struct Best {
    pub(crate) bundles: [Bundle; MOST_KEPT],
    pub(crate) count: u8,
    ghost whole: { length bundles ≡ 8 },
    ghost few: { count ≤ 8 },
}

impl Best {
    ghost use Rattle.std.specs.Prelude.{◌<◌, ◌++◌, ◌∷◌, [], Bool};
    ghost use Rattle.bundle_rules.specs.Demand.{IsBest, HasPrices};
    ghost use Rattle.bundle_rules.specs.Menus.{wishes_of};
    ghost use Rattle.demand_oracle.specs.Bests.{AreBest};
    ghost use Rattle.demand_oracle.specs.BestViews.{bundles_of};

    /// No bundles.
    pub(crate) fn none() -> Best
        ensures { bundles_of result ≡ [] }
    {
        Best {
            bundles: [Bundle::empty(); MOST_KEPT],
            count: 0,
        }
    }

    /// These bundles, and one more behind them.
    pub(crate) fn with(self, bundle: Bundle) -> Best
        requires { length (bundles_of self) < 8 }
        ensures { bundles_of result ≡ bundles_of self ++ sections_of bundle ∷ [] }
    {
        let mut bundles = self.bundles;
        bundles[usize::from(self.count)] = bundle;
        Best {
            bundles,
            count: self.count + 1,
        }
    }

    /// The first of them.
    pub fn first(&self) -> Bundle
        requires { 1 ≤ length (bundles_of self.now) }
        ensures { (others : List (List ℕ))
            × (bundles_of self.now ≡ sections_of result ∷ others) }
    {
        self.bundles[0]
    }

    /// The bundles, the most preferred first.
    pub fn as_slice(&self) -> &[Bundle]
        ensures { map sections_of result.now ≡ bundles_of self.now }
    {
        &self.bundles[..usize::from(self.count)]
    }

    /// The first of them that is affordable at these prices. It is the best bundle there, if they
    /// are the best at prices of which none on the menu was higher. There is a price for each
    /// section of the menu, each at most 1,000,001.
    pub fn first_within(&self, menu: &Menu, prices: &[Tokens], budget: Tokens) -> Option<Bundle>
        requires prices { HasPrices menu.now prices.now }
        requires rated { (bundle : List ℕ) → IsAmong bundle (bundles_of self.now)
            → (s : ℕ) → has bundle s ≡ true → 0 < (wishes_of menu.now).rating s }
        ensures first { IfSome result
            (λ bundle. IsFirstWithin (price_in prices.now) budget.0 (bundles_of self.now)
            (sections_of bundle)) }
        ensures best { (price : ℕ → ℕ) (allowed : ℕ → Bool)
            → AreBest (wishes_of menu.now) price budget.0 allowed (bundles_of self.now)
            → ((s : ℕ) → 0 < (wishes_of menu.now).rating s → price s ≤ price_in prices.now s)
            → IfSome result
            (λ bundle. IsBest (wishes_of menu.now) (price_in prices.now) budget.0 allowed
            (sections_of bundle)) }
    {
        first_of(self.as_slice(), prices, budget)
    }
}

// The first of these bundles that is affordable.
fn first_of(bundles: &[Bundle], prices: &[Tokens], budget: Tokens) -> Option<Bundle>
    requires { (bundle : List ℕ) → IsAmong bundle (map sections_of bundles.now)
        → (s : ℕ) → has bundle s ≡ true → IsPriced prices.now s }
    ensures { IfSome result
        (λ bundle. IsFirstWithin (price_in prices.now) budget.0 (map sections_of bundles.now)
        (sections_of bundle)) }
{
    match bundles {
        [] => None,
        [first, others @ ..] => {
            if price_of(prices, first.sections()) <= budget.0 {
                return Some(*first);
            }
            first_of(others, prices, budget)
        }
    }
}
