// The crowd of a market after its desk is closed.
ghost use Rattle.std.specs.Prelude.{◌≡◌, IfOk};
ghost use Rattle.demand_api.specs.Views.{data_of};
ghost use Rattle.preference_desk.specs.DeskView.{entries_of, names_of};
ghost use Rattle.published_parts.specs.{Crowds.IsCrowdIn, Markets.names_in, Views.market_in};

use demand_api::Crowd;
use market_crowd::make_crowd;
use market_units::NoMemory;
use preference_desk::Desk;
use published_parts::Market;
use std::alloc::Global;

/// The crowd of the market after the journal of a desk for its catalogue and its roll. The one
/// error is the want of memory.
pub fn crowd_after(alloc: Global, market: &Market, desk: &Desk) -> Result<Crowd, NoMemory>
    requires { names_of desk.now ≡ names_in (market_in market.now) }
    ensures { IfOk result
        (λ crowd. IsCrowdIn (market_in market.now) (entries_of desk.now) (data_of crowd)) }
{
    make_crowd(
        alloc,
        market.catalog,
        market.roll,
        desk.closed(),
        market.settings.seed,
        market.settings.spread,
    )
}
