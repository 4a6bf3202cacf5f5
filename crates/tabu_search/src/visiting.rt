// A visit to a vector of prices.
ghost use Rattle.std.specs.Prelude.{◌≡◌, IfOk};
ghost use Rattle.demand_api.specs.Asking.{ArePricesFor};
ghost use Rattle.tabu_search.specs.Walks.{IsSeated, IsVisit};

use clearing_error::error;
use demand_api::Demands;
use market_units::{NoMemory, Tokens};
use std::alloc::Global;
use std::sync::Wait;
use std::thread::Threads;

// A vector of prices, with the counts and the clearing error at it.
#[derive(Drop)]
pub(crate) struct Visit {
    pub(crate) prices: Vec<Tokens>,
    pub(crate) counts: Vec<u32>,
    pub(crate) error: u64,
}

/// What a search knows of these prices: how many students take each section at them, and the
/// clearing error.
pub(crate) fn visit_at<R: Threads + Wait + Sync, D: Demands>(
    rt: &R,
    alloc: Global,
    demands: &mut D,
    seats: &[u16],
    prices: Vec<Tokens>,
) -> Result<Visit, NoMemory>
    requires seated { IsSeated (D.crowd demands.old) seats.now }
    requires prices { ArePricesFor (D.crowd demands.old) prices.items }
    ensures crowd { D.crowd demands.new ≡ D.crowd demands.old }
    ensures prices { IfOk result (λ visit. visit.prices.items ≡ prices.items) }
    ensures visit { IfOk result (IsVisit (D.crowd demands.old) seats.now) }
{
    let batch = [prices.to_vec(alloc)?];
    let found = demands.counts(rt, alloc, &batch)?;
    let counts = found[0].to_vec(alloc)?;
    let error = error(&counts, seats, &prices);
    Ok(Visit {
        prices,
        counts,
        error,
    })
}
