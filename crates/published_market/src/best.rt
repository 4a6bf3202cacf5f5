// A best bundle, and what it is the best of.
ghost use Rattle.std.specs.Prelude.{◌≡◌};
ghost use Rattle.bundle_rules.specs.{Bundles.sections_of, Demand.HasPrices};
ghost use Rattle.published_market.specs.Turns.{best_in};

use bundle_rules::{Bundle, Menu};
use market_units::{SectionSet, Tokens};

/// A best bundle with what it is the best of: a student's menu, prices, the student's budget, and
/// the sections that may be taken. There is a price for each section of the menu.
#[derive(Clone, Copy)]
pub(crate) struct Best<'a> {
    pub menu: &'a Menu,
    pub prices: &'a [Tokens],
    pub budget: Tokens,
    pub allowed: &'a SectionSet,
    pub bundle: &'a Bundle,
    pub ghost priced: { HasPrices menu.now prices.now },
    pub ghost best: { sections_of bundle.now ≡ best_in menu.now prices.now budget.0 allowed.now },
}
