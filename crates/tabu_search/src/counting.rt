// Counts at many vectors.
ghost use Rattle.std.specs.Prelude.{◌≡◌, ◌≤◌, IfOk, All, length, map, take, drop};
ghost use Rattle.demand_api.specs.Asking.{ArePricesFor};
ghost use Rattle.tabu_search.specs.Visits.{counts_at};

use demand_api::Demands;
use market_units::{MAX_VERSIONS, NoMemory, Tokens};
use std::alloc::Global;
use std::sync::Wait;
use std::thread::Threads;

// The next vectors to be counted, as many as are asked for at once.
fn next_batch(vectors: &[Vec<Tokens>], done: usize) -> &[Vec<Tokens>]
    requires { done ≤ length vectors.now }
    ensures { result.now ≡ take MAX_VERSIONS (drop done vectors.now) }
{
    let rest = &vectors[done..];
    &rest[..rest.len().min(MAX_VERSIONS)]
}

/// How many students take each section at each vector, in the order of the vectors. At most 16 of
/// them are asked for at once.
pub(crate) fn count_all<R: Threads + Wait + Sync, D: Demands>(
    rt: &R,
    alloc: Global,
    demands: &mut D,
    vectors: &[Vec<Tokens>],
) -> Result<Vec<Vec<u32>>, NoMemory>
    requires { All (λ vector. ArePricesFor (D.crowd demands.old) vector.items) vectors.now }
    ensures crowd { D.crowd demands.new ≡ D.crowd demands.old }
    ensures value { IfOk result
        (λ counted. map (λ counts. counts.items) counted.items
        ≡ map (λ vector. counts_at (D.crowd demands.old) vector.items) vectors.now) }
{
    demands.foresee(rt, alloc, vectors)?;
    let mut counted = Vec::with_capacity(alloc, vectors.len())?;
    'batches: while counted.len() < vectors.len() {
        let batch = next_batch(vectors, counted.len());
        let mut found = demands.counts(rt, alloc, batch)?;
        counted.append(&mut found)?;
    }
    Ok(counted)
}
