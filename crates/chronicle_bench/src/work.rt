// The arithmetic between two calls.
ghost use Rattle.std.specs.Prelude.{◌≡◌, ◌-◌, ◌^◌, min};
ghost use Rattle.std.specs.Duration.{as_nanos};

use std::io;
use std::time::{Clock, Duration, Instant};

/// Rounds that are timed at once, to learn how long one takes.
const SAMPLE: u64 = 1_000_000;

/// How often they are timed.
const SAMPLES: u64 = 20;

/// So many rounds, each of which needs the one before it.
pub fn work(seed: u64, rounds: u64) -> u64 {
    let mut value = seed;
    for _ in 0..rounds {
        value = value
            .wrapping_mul(6_364_136_223_846_793_005)
            .wrapping_add(1_442_695_040_888_963_407);
        value ^= value >> 29;
    }
    value
}

/// How many rounds take so many nanoseconds on this machine, by the fastest sample.
pub fn rounds_in<R: Clock>(rt: &R, time: u64) -> io::Result<u64> {
    let mut fastest = u64::MAX;
    let mut seed = 1;
    for _ in 0..SAMPLES {
        let start = Instant::now(rt)?;
        seed = work(seed, SAMPLE);
        fastest = fastest.min(nanoseconds(start.elapsed(rt)?));
    }
    // The seed is looked at, so that no sample is left out.
    let rounds = time.saturating_mul(SAMPLE) / fastest.max(1);
    Ok(rounds.saturating_add(seed >> 63))
}

/// A time in nanoseconds, or the most of them that a `u64` counts.
pub fn nanoseconds(time: Duration) -> u64
    ensures { result ≡ min (as_nanos time) (2 ^ 64 - 1) }
{
    time.as_secs()
        .saturating_mul(1_000_000_000)
        .saturating_add(u64::from(time.subsec_nanos()))
}
