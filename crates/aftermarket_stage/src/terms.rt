// What an aftermarket goes by.
ghost use Rattle.std.specs.Prelude.{◌≡◌, ◌≤◌, length};
ghost use Rattle.market_units.specs.declared.limits.TheConstants.{MAX_RAISE};
ghost use Rattle.demand_api.specs.Asking.{AreSectionPrices};

use demand_api::Crowd;
use market_units::Tokens;

/// What an aftermarket goes by: a crowd, the seats and the price of each of its sections, and the
/// raise of its budgets. Each price is at most 1,000,001.
#[derive(Clone, Copy)]
pub(crate) struct Terms<'a> {
    pub(crate) crowd: &'a Crowd,
    /// By ordinal of the section.
    pub(crate) seats: &'a [u16],
    /// By ordinal of the section, in tokens.
    pub(crate) prices: &'a [Tokens],
    /// In percent, at most 50.
    pub(crate) raise: u8,
    ghost seats_each: { length seats.now ≡ crowd.now.sections },
    ghost priced: { AreSectionPrices crowd.now.sections prices.now },
    ghost raise_low: { raise ≤ MAX_RAISE },
}
