// The prices at which a search starts, and those of a restart.
ghost use Rattle.std.specs.Prelude.{◌≡◌, ◌<◌, IfOk, map, replicate, ◌%◌};
ghost use Rattle.seed_words.specs.Streams.{stream_words};

use market_units::{NoMemory, Tokens};
use seed_words::words;
use std::alloc::Global;

/// The price 0 for each section.
pub(crate) fn zero_prices(alloc: Global, sections: usize) -> Result<Vec<Tokens>, NoMemory>
    ensures { IfOk result (λ prices. prices.items ≡ replicate sections (record { 0 = 0 })) }
{
    Ok(vec![in alloc; Tokens(0); sections]?)
}

/// The prices to which a restart moves, drawn from the seed: each is below the top. Restarts are
/// numbered from 1, and each has a stream of words of its own.
pub(crate) fn drawn_prices(
    alloc: Global,
    top: Tokens,
    seed: u64,
    restart: u32,
    sections: usize,
) -> Result<Vec<Tokens>, NoMemory>
    requires { 0 < top.0 }
    ensures { IfOk result
        (λ prices. prices.items
        ≡ map (λ word. record { 0 = word % top.0 }) (stream_words seed restart sections)) }
{
    let drawn = words(alloc, seed, u64::from(restart), sections)?;
    let mut prices = Vec::with_capacity(alloc, drawn.len())?;
    for word in &drawn {
        prices.push(Tokens((*word % u64::from(top.0)) as u32))?;
    }
    Ok(prices)
}
