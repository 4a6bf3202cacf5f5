// The whole search.
ghost use Rattle.std.specs.Prelude.{◌≡◌, ℕ, Err, IfOk, length};
ghost use Rattle.tabu_search.specs.Search.{IsFound, FindsNone};

use crate::drawing::zero_prices;
use crate::visiting::visit_at;
use crate::walking::Walk;
use crate::{Found, SearchEnd};
use demand_api::Demands;
use market_settings::Settings;
use std::alloc::Global;
use std::sync::Wait;
use std::thread::Threads;

/// Searches for prices of an error of at most the accepted one, from the price 0 for each section.
/// A turn moves to the first neighbour of least error whose counts are none of the last `tabu`
/// visited ones, or, where there is none or `patience` turns brought nothing better, to the prices
/// drawn for a restart. The search ends at the first vector of accepted error, and after `turns`
/// turns. Its result is the first visited vector of least error, with the number of turns made,
/// where that error is accepted. `NoPrices` comes exactly where it is not. There is one seat number
/// for each section.
pub fn search<R: Threads + Wait + Sync, D: Demands>(
    rt: &R,
    alloc: Global,
    demands: &mut D,
    seats: &[u16],
    settings: &Settings,
) -> Result<Found, SearchEnd>
    requires { length seats.now ≡ (D.crowd demands.old).sections }
    ensures crowd { D.crowd demands.new ≡ D.crowd demands.old }
    ensures found { IfOk result
        (λ found. IsFound (D.crowd demands.old) seats.now settings.now found.prices.items
        found.error found.turns) }
    ensures none { (least : ℕ) → result ≡ Err (SearchEnd.NoPrices least)
        → FindsNone (D.crowd demands.old) seats.now settings.now least }
{
    let top = demands.top();
    let zero = zero_prices(alloc, seats.len())?;
    let start = visit_at(rt, alloc, demands, seats, zero)?;
    let mut walk = Walk::begin(alloc, start, top, settings)?;
    'turns: while walk.goes_on(settings) {
        walk = walk.turn(rt, alloc, demands, seats, settings)?;
    }
    let Walk { best, turns, .. } = walk;
    if best.error > settings.accept {
        return Err(SearchEnd::NoPrices { least: best.error });
    }
    Ok(Found {
        prices: best.prices,
        error: best.error,
        turns,
    })
}
