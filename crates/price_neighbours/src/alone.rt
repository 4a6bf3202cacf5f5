// Vectors in which one section alone has another price.
ghost use Rattle.std.specs.Prelude.{◌≡◌, ◌<◌, ◌++◌, IfOk, length, map, filter, flat_map};
ghost use Rattle.std.specs.List.{range_with_len};
ghost use Rattle.bundle_rules.specs.Demand.{price_in};
ghost use Rattle.demand_api.specs.{Asking.ArePricesFor, Crowds.count, Crowds.counts as counts_of};
ghost use Rattle.price_neighbours.specs.Asked.{is_over, pair_of};
ghost use Rattle.price_neighbours.specs.Neighbours.{with_alone, least_fewer, alone};

use crate::taken::Taken;
use demand_api::Demands;
use market_units::{NoMemory, SectionNo, Tokens};
use std::alloc::Global;
use std::sync::Wait;
use std::thread::Threads;

// The sections that more students take than they have seats, by ordinal, each with one less than
// its count.
fn pairs_over(alloc: Global, taken: &Taken) -> Result<Vec<(SectionNo, u32)>, NoMemory>
    ensures { IfOk result
        (λ pairs. pairs.items
        ≡ map (pair_of taken.now.counts.now)
        (filter (is_over taken.now.counts.now taken.now.seats.now)
        (range_with_len 0 (length taken.now.counts.now)))) }
{
    let mut pairs = Vec::new(alloc);
    for place in 0..taken.counts.len() {
        let count = taken.counts[place];
        if count <= u32::from(taken.seats[place]) {
            continue;
        }
        pairs.push((SectionNo(place as u16), count - 1))?;
    }
    Ok(pairs)
}

// The vector in which the section at this place alone has this price.
fn with_alone(
    alloc: Global,
    prices: &[Tokens],
    place: usize,
    price: Tokens,
) -> Result<Vec<Tokens>, NoMemory>
    requires { place < length prices.now }
    ensures { IfOk result (λ vector. vector.items ≡ with_alone prices.now place price.0) }
{
    let mut vector = prices.to_vec(alloc)?;
    vector[place] = price;
    Ok(vector)
}

/// Puts behind the vectors those in which one section alone has another price, by its ordinal. One
/// with too many students gets the least price at which fewer take it; one with free seats and a
/// price above 0 gets price 0; for any other there is no vector. All least prices are asked for at
/// once.
pub(crate) fn push_alone<R: Threads + Wait + Sync, D: Demands>(
    rt: &R,
    alloc: Global,
    demands: &mut D,
    vectors: &mut Vec<Vec<Tokens>>,
    taken: &Taken,
) -> Result<(), NoMemory>
    requires prices { ArePricesFor (D.crowd demands.old) taken.now.prices.now }
    requires counts { taken.now.counts.now
        ≡ counts_of (D.crowd demands.old) (price_in taken.now.prices.now) }
    ensures crowd { D.crowd demands.new ≡ D.crowd demands.old }
    ensures value { IfOk result
        (λ done. map (λ vector. vector.items) vectors.new.items
        ≡ map (λ vector. vector.items) vectors.old.items
        ++ flat_map
        (alone (least_fewer (D.crowd demands.old) (price_in taken.now.prices.now))
        (count (D.crowd demands.old) (price_in taken.now.prices.now)) taken.now.seats.now
        taken.now.prices.now)
        (range_with_len 0 (length taken.now.prices.now))) }
{
    let prices = taken.prices;
    let pairs = pairs_over(alloc, taken)?;
    let least = demands.least_prices(rt, alloc, prices, &pairs)?;
    let mut asked = 0;
    for place in 0..prices.len() {
        let count = taken.counts[place];
        let room = u32::from(taken.seats[place]);
        if count > room {
            vectors.push(with_alone(alloc, prices, place, least[asked])?)?;
            asked += 1;
            continue;
        }
        // A section with as many students as seats stays, and so does one that costs nothing.
        if count == room {
            continue;
        }
        if prices[place].0 == 0 {
            continue;
        }
        vectors.push(with_alone(alloc, prices, place, Tokens(0))?)?;
    }
    Ok(())
}
