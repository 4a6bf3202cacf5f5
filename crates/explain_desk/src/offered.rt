// What is offered to a student.
ghost use Rattle.std.specs.Prelude.{◌≤◌};
ghost use Rattle.market_units.specs.declared.limits.TheConstants.{MAX_SECTIONS};
ghost use Rattle.bundle_rules.specs.Demand.{HasPrices};

use bundle_rules::Menu;
use market_units::Tokens;

/// All of at most 400 sections, offered to a student with this menu and this budget. There is a
/// price for each section of the menu.
#[derive(Clone, Copy)]
pub(crate) struct Offered<'a> {
    pub menu: &'a Menu,
    pub prices: &'a [Tokens],
    pub budget: Tokens,
    pub sections: u16,
    pub ghost priced: { HasPrices menu.now prices.now },
    pub ghost few: { sections ≤ MAX_SECTIONS },
}
