// What students choose in an aftermarket.
ghost use Rattle.std.specs.Prelude.{◌≤◌, All};
ghost use Rattle.market_units.specs.declared.limits.TheConstants.{MAX_RAISE};
ghost use Rattle.aftermarket_stage.specs.After.{turns_of};
ghost use Rattle.demand_api.specs.{Asking.ArePricesFor, Views.data_of};
ghost use Rattle.published_market.specs.Making.{IsBestTurn};

use aftermarket_stage::Turn;
use demand_api::Crowd;
use market_units::Tokens;

/// A crowd, prices that may be asked of it, by how many percent its budgets are raised, and the
/// turns of its students, each to the best of what it may choose.
#[derive(Clone, Copy)]
pub(crate) struct Chosen<'a> {
    pub crowd: &'a Crowd,
    pub prices: &'a [Tokens],
    pub raise: u8,
    pub turns: &'a [Turn],
    pub ghost priced: { ArePricesFor (data_of crowd.now) prices.now },
    pub ghost raised: { raise ≤ MAX_RAISE },
    pub ghost best: { All (IsBestTurn (data_of crowd.now) prices.now raise) (turns_of turns.now) },
}
