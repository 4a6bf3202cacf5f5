// The whole work of sessions at one object.
ghost use Rattle.std.specs.Prelude.{◌≡◌, ◌<◌, ◌≤◌, ℕ, true, length, map, slice_index_or, IfOk};
ghost use Rattle.std.specs.Vec.{vec_len};
ghost use Rattle.market_units.specs.Totals.{total};
ghost use Rattle.chronicle.specs.History.{IsLegal, state_after};
ghost use Rattle.stream_posting.specs.{Postings.IsReady, Streams.MergesCalls, Streams.lists_of};

use crate::posting::post_all;
use chronicle::{Chronicle, Journal, Object, Seat};
use market_edge::Gate;
use market_units::{MAX_SESSIONS, NoMemory};
use std::alloc::Global;
use std::sync::Wait;
use std::thread::Threads;

/// Begins a history of calls on the object, and ends it when all sessions have posted. Session n
/// makes the requests of the n-th stream in its order, from a thread of its own where one can be
/// started; sessions are numbered from 1, and seat n is session n + 1. Each passes the gate before
/// its first request and after each reply. All memory is taken before a session starts, and
/// `NoMemory` is the only error.
pub fn post_streams<R: Threads + Wait + Sync, O: Object + Send, G: Gate + Sync>(
    rt: &R,
    alloc: Global,
    object: O,
    streams: &[Vec<O::Request>],
    gate: &G,
) -> Result<(O, Journal<O>), NoMemory>
where
    O::Request: Send + Sync,
    O::Reply: Send,
    requires sessions { (1 ≤ length streams.now) × (length streams.now ≤ MAX_SESSIONS) }
    requires room { total vec_len streams.now ≤ O.room object }
    requires sound { (request : O.Request) → O.sound (O.base object) request ≡ true }
    ensures base { IfOk result (λ closed. O.base closed.0 ≡ O.base object) }
    ensures legal { IfOk result
        (λ closed. IsLegal O.sound O.after O.reply (O.base object) (O.state object) closed.1) }
    ensures merges { IfOk result (λ closed. MergesCalls (lists_of streams.now) closed.1) }
    ensures state { IfOk result
        (λ closed. O.state closed.0
        ≡ state_after O.after (O.base object) (O.state object) closed.1) }
{
    let allotments = lengths_of(alloc, streams)?;
    let (chronicle, seats) = Chronicle::start(alloc, object, allotments)?;
    let (object, journal) = post_and_close(rt, chronicle, seats, streams, gate);
    Ok((object, journal))
}

// From the first session's start to the end of the history: it is given no allocator and has no
// error, so no memory is taken meanwhile.
fn post_and_close<R: Threads + Wait + Sync, O: Object + Send, G: Gate + Sync>(
    rt: &R,
    chronicle: Chronicle<O>,
    mut seats: Vec<Seat<O>>,
    streams: &[Vec<O::Request>],
    gate: &G,
) -> (O, Journal<O>)
where
    O::Request: Send + Sync,
    O::Reply: Send,
    requires sessions { (1 ≤ length streams.now) × (length streams.now ≤ MAX_SESSIONS) }
    requires count { (vec_len seats ≡ length streams.now)
        × (length chronicle.allotments ≡ length streams.now) }
    requires numbers { (n : ℕ) (d : _) → n < vec_len seats
        → (slice_index_or seats.items n d).number ≡ n }
    requires ready { (n : ℕ) (d : _) (none : _) → n < vec_len seats
        → IsReady O.sound chronicle (slice_index_or streams.now n none).items
        (slice_index_or seats.items n d) }
    ensures base { O.base result.0 ≡ chronicle.base }
    ensures legal { IsLegal O.sound O.after O.reply chronicle.base chronicle.opening result.1 }
    ensures merges { MergesCalls (lists_of streams.now) result.1 }
    ensures state { O.state result.0
        ≡ state_after O.after chronicle.base chronicle.opening result.1 }
{
    post_all(rt, &chronicle, seats.as_mut_slice(), streams, gate);
    chronicle.close(seats)
}

// How many requests each stream has.
fn lengths_of<T>(alloc: Global, streams: &[Vec<T>]) -> Result<Vec<u64>, NoMemory>
    ensures { IfOk result (λ lengths. lengths.items ≡ map vec_len streams.now) }
{
    let mut lengths = Vec::with_capacity(alloc, streams.len())?;
    for stream in streams {
        lengths.push(stream.len() as u64)?;
    }
    Ok(lengths)
}
