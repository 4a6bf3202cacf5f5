// The whole elimination.
ghost use Rattle.std.specs.Prelude.{◌≡◌, IfOk, length};
ghost use Rattle.demand_api.specs.Asking.{ArePricesFor};
ghost use Rattle.oversubscription_stage.specs.Rounds.{IsSettled, AreTaken};

use crate::excess::most_over;
use bundle_rules::Bundle;
use demand_api::Demands;
use market_units::{NoMemory, Tokens};
use own_price::Held;
use std::alloc::Global;
use std::sync::Wait;
use std::thread::Threads;

/// The last prices of the elimination, what each student takes at them in file order, and the
/// number of rounds.
#[derive(Drop)]
pub struct Settled {
    /// The price of each section.
    pub prices: Vec<Tokens>,
    /// What each student takes, in file order.
    pub bundles: Vec<Bundle>,
    /// How often a price was raised.
    pub rounds: u32,
}

/// Raises prices until no section has more students than seats. While some count exceeds its seats,
/// the section of greatest excess, the lowest ordinal among equals, gets the least price at which
/// at most its seats and half of those who are too many take it, rounded down. There are one seat
/// number and one price for each section, each price at most the top. There is no limit of rounds:
/// each raises a price, and none passes the top. The one error is the want of memory.
pub fn settle<R: Threads + Wait + Sync, D: Demands>(
    rt: &R,
    alloc: Global,
    demands: &mut D,
    seats: &[u16],
    prices: &[Tokens],
) -> Result<Settled, NoMemory>
    requires seats { length seats.now ≡ (D.crowd demands.old).sections }
    requires prices { ArePricesFor (D.crowd demands.old) prices.now }
    ensures crowd { D.crowd demands.new ≡ D.crowd demands.old }
    ensures value { IfOk result
        (λ settled. IsSettled (D.crowd demands.old) seats.now prices.now settled.prices.items
        settled.rounds) }
    ensures bundles { IfOk result
        (λ settled. AreTaken (D.crowd demands.old) settled.prices.items settled.bundles.items) }
{
    let mut held = Held::take(rt, alloc, demands, prices)?;
    let mut rounds = 0;
    while let Some(section) = most_over(&held, seats) {
        let room = u32::from(seats[usize::from(section.0)]);
        let limit = room + (held.count(section) - room) / 2;
        let least = demands.least_prices(rt, alloc, held.prices(), &[(section, limit)])?;
        held.raise(rt, alloc, demands, section, least[0])?;
        rounds += 1;
    }
    Ok(Settled {
        prices: held.prices().to_vec(alloc)?,
        bundles: held.bundles().to_vec(alloc)?,
        rounds,
    })
}
