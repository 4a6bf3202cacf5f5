// What a student may choose from.
ghost use Rattle.bundle_rules.specs.Demand.{HasPrices};

use bundle_rules::Rows;
use market_units::{SectionSet, Tokens};

/// A menu at given prices, with a budget and the sections that may be taken. There is a price for
/// each section of the menu, each at most 1,000,001.
#[derive(Clone, Copy)]
pub struct Offer<'a> {
    pub menu: &'a Rows,
    /// By ordinal of the section, in tokens.
    pub prices: &'a [Tokens],
    pub budget: Tokens,
    pub allowed: &'a SectionSet,
    pub ghost priced: { HasPrices menu.now prices.now },
}
