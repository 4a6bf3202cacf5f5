// The neighbours of a vector of prices.
ghost use Rattle.std.specs.Prelude.{◌≡◌, IfOk, All, length, map};
ghost use Rattle.bundle_rules.specs.Demand.{price_in};
ghost use Rattle.demand_api.specs.{Asking.ArePricesFor, Crowds.counts as counts_of};
ghost use Rattle.price_neighbours.specs.Neighbours.{neighbours};

use crate::alone::push_alone;
use crate::distinct::once;
use crate::steps::push_stepped;
use crate::taken::Taken;
use demand_api::Demands;
use market_units::{NoMemory, Tokens};
use std::alloc::Global;
use std::sync::Wait;
use std::thread::Threads;

/// The neighbours of a vector of prices, in order. First, for each step, the vector in which every
/// price has so many times its section's excess added, cut to the range 0 to the top. Then, by
/// ordinal, the vectors in which one section alone has another price: where more students take the
/// section than it has seats, the least greater price at which fewer take it; where seats are free
/// and the price is above 0, the price 0. Equal vectors are kept once, at the first place. There
/// are one seat number and one price for each section, each price at most the top, and the counts
/// are those at the prices. The one error is the want of memory.
pub fn neighbours<R: Threads + Wait + Sync, D: Demands>(
    rt: &R,
    alloc: Global,
    demands: &mut D,
    prices: &[Tokens],
    counts: &[u32],
    seats: &[u16],
    steps: &[u32],
) -> Result<Vec<Vec<Tokens>>, NoMemory>
    requires seats { length seats.now ≡ (D.crowd demands.old).sections }
    requires prices { ArePricesFor (D.crowd demands.old) prices.now }
    requires counts { counts.now ≡ counts_of (D.crowd demands.old) (price_in prices.now) }
    ensures crowd { D.crowd demands.new ≡ D.crowd demands.old }
    ensures value { IfOk result
        (λ found. map (λ vector. vector.items) found.items
        ≡ neighbours (D.crowd demands.old) seats.now steps.now prices.now) }
    ensures prices { IfOk result
        (λ found. All (λ vector. ArePricesFor (D.crowd demands.old) vector.items) found.items) }
{
    let top = demands.top();
    let taken = Taken {
        prices,
        counts,
        seats,
    };
    let mut vectors = Vec::new(alloc);
    push_stepped(alloc, &mut vectors, top, &taken, steps)?;
    push_alone(rt, alloc, demands, &mut vectors, &taken)?;
    once(alloc, vectors)
}
