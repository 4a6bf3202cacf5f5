//! The words that a seed draws, by stream and place: ChaCha20 over a key that holds the seed.
// Neither: that different seeds, streams or places have different words, beyond the tested ones.
#![tactic(auto)]

ghost use Rattle.std.specs.Prelude.{◌≡◌, ◌+◌, ◌<◌, ◌^◌, IfOk};
ghost use Rattle.seed_words.specs.Streams.{at_word, key_bytes, stream_word, stream_words};

use market_units::NoMemory;
use rand_chacha::ChaCha20Rng;
use rand_core::SeedableRng;
use rand_core::utils::next_u64_via_u32;
use std::alloc::Global;

// The key that holds a seed.
fn key_of_seed(seed: u64) -> [u8; 32]
    ensures { result ≡ key_bytes seed }
{
    let mut key = [0; 32];
    key[..8].copy_from_slice(&seed.to_le_bytes());
    key
}

// A generator at a word of a stream.
fn generator_at(seed: u64, stream: u64, place: u64) -> ChaCha20Rng
    ensures { result ≡ at_word seed stream place }
{
    let mut generator = ChaCha20Rng::from_seed(key_of_seed(seed));
    generator.set_stream(stream);
    generator.set_word_pos(2 * u128::from(place));
    generator
}

/// The 64-bit word at a place, from 0, of a stream.
pub fn word(seed: u64, stream: u64, place: u64) -> u64
    ensures { result ≡ stream_word seed stream place }
{
    next_u64_via_u32(&mut generator_at(seed, stream, place))
}

// The word that a generator comes to next.
fn next_word(generator: &mut ChaCha20Rng, seed: u64, stream: u64, place: usize) -> u64
    requires { generator.old ≡ at_word seed stream place }
    ensures word { result ≡ stream_word seed stream place }
    ensures after { generator.new ≡ at_word seed stream (place + 1) }
{
    next_u64_via_u32(generator)
}

/// The first words of a stream.
pub fn words(alloc: Global, seed: u64, stream: u64, count: usize) -> Result<Vec<u64>, NoMemory>
    ensures { IfOk result (λ drawn. drawn.items ≡ stream_words seed stream count) }
{
    let mut drawn = Vec::with_capacity(alloc, count)?;
    let mut generator = generator_at(seed, stream, 0);
    for place in 0..count {
        drawn.push(next_word(&mut generator, seed, stream, place))?;
    }
    Ok(drawn)
}
