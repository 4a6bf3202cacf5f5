// Vectors without those that stand there already.
ghost use Rattle.std.specs.Prelude.{◌≡◌, IfOk, map};
ghost use Rattle.price_neighbours.specs.Distinct.{once, same_prices};

use indexmap::IndexSet;
use market_units::{NoMemory, Tokens};
use std::alloc::Global;

// The amounts of the prices, which have a hash.
fn amounts(alloc: Global, prices: &[Tokens]) -> Result<Vec<u32>, NoMemory>
    ensures { IfOk result (λ found. found.items ≡ map (λ price. price.0) prices.now) }
{
    Ok(prices.iter().map(|price| price.0).collect(alloc)?)
}

/// The vectors without repetitions: of equal ones the first stays at its place.
pub(crate) fn once(alloc: Global, vectors: Vec<Vec<Tokens>>) -> Result<Vec<Vec<Tokens>>, NoMemory>
    ensures { IfOk result
        (λ kept. map (λ vector. vector.items) kept.items
        ≡ once same_prices (map (λ vector. vector.items) vectors.items)) }
{
    let mut seen = IndexSet::new(alloc);
    let mut kept = Vec::new(alloc);
    for vector in vectors {
        if seen.insert(amounts(alloc, &vector)?)? {
            kept.push(vector)?;
        }
    }
    Ok(kept)
}
