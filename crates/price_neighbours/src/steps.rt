// Vectors in which every price makes a step.
ghost use Rattle.std.specs.Prelude.{◌≡◌, ◌≤◌, pos, nat_abs, ◌+ℤ◌, ◌*ℤ◌, ◌++◌, IfOk, map, slice_index};
ghost use Rattle.price_neighbours.specs.Neighbours.{cut, stepped};

use crate::taken::Taken;
use clearing_error::excess;
use market_units::{NoMemory, Tokens};
use std::alloc::Global;

// So many times an excess.
fn change(excess: i32, step: u32) -> i64
    requires { nat_abs excess ≤ 65535 }
    ensures value { result ≡ pos step *ℤ excess }
    ensures small { nat_abs result ≤ 281470681677825 }
{
    i64::from(step) * i64::from(excess)
}

// The price with a change, cut to the range 0 to the top.
fn changed(top: Tokens, price: Tokens, change: i64) -> Tokens
    requires { nat_abs change ≤ 281470681677825 }
    ensures { result.0 ≡ cut top.0 (pos price.0 +ℤ change) }
{
    let moved = i64::from(price.0) + change;
    Tokens(moved.clamp(0, i64::from(top.0)) as u32)
}

// The vector in which every price makes the step.
fn stepped(alloc: Global, top: Tokens, taken: &Taken, step: u32) -> Result<Vec<Tokens>, NoMemory>
    ensures { IfOk result
        (λ moved. moved.items
        ≡ stepped top.0 (slice_index taken.now.counts.now) taken.now.seats.now
        taken.now.prices.now step) }
{
    let Taken {
        prices,
        counts,
        seats,
    } = *taken;
    let mut moved = Vec::with_capacity(alloc, prices.len())?;
    for place in 0..prices.len() {
        let excess = excess(counts[place], seats[place]);
        moved.push(changed(top, prices[place], change(excess, step)))?;
    }
    Ok(moved)
}

/// Puts one vector behind the others for each step, in order: every price is raised by so many
/// tokens for each student too many, or lowered by so many for each free seat. What would leave the
/// range from 0 to the top is cut to it.
pub(crate) fn push_stepped(
    alloc: Global,
    vectors: &mut Vec<Vec<Tokens>>,
    top: Tokens,
    taken: &Taken,
    steps: &[u32],
) -> Result<(), NoMemory>
    ensures { IfOk result
        (λ done. map (λ vector. vector.items) vectors.new.items
        ≡ map (λ vector. vector.items) vectors.old.items
        ++ map
        (stepped top.0 (slice_index taken.now.counts.now) taken.now.seats.now
        taken.now.prices.now)
        steps.now) }
{
    for step in steps {
        let vector = stepped(alloc, top, taken, *step)?;
        vectors.push(vector)?;
    }
    Ok(())
}
