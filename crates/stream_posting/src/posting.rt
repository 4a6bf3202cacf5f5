// What the sessions do while the history is open.
ghost use Rattle.std.specs.Prelude.{◌≡◌, ◌<◌, ◌≤◌, ℕ, length, slice_index_or};
ghost use Rattle.stream_posting.specs.Postings.{IsReady, HasPosted};

use chronicle::{Chronicle, Object, Seat};
use market_edge::{Gate, Stop};
use market_units::MAX_SESSIONS;
use std::sync::Wait;
use std::thread;
use std::thread::Threads;

/// Each session makes the requests of its stream in their order, from a thread of its own where one
/// can be started. The call does not return before all are made.
pub(crate) fn post_all<R: Threads + Wait + Sync, O: Object + Send, G: Gate + Sync>(
    rt: &R,
    chronicle: &Chronicle<O>,
    seats: &mut [Seat<O>],
    streams: &[Vec<O::Request>],
    gate: &G,
)
where
    O::Request: Send + Sync,
    O::Reply: Send,
    requires count { (length seats.old ≡ length streams.now) × (1 ≤ length streams.now)
        × (length streams.now ≤ MAX_SESSIONS) }
    requires numbers { (n : ℕ) (d : _) → n < length seats.old
        → (slice_index_or seats.old n d).number ≡ n }
    requires ready { (n : ℕ) (d : _) (none : _) → n < length seats.old
        → IsReady O.sound chronicle.now (slice_index_or streams.now n none).items
        (slice_index_or seats.old n d) }
    ensures count { length seats.new ≡ length seats.old }
    ensures numbers { (n : ℕ) (d : _) → n < length seats.old
        → (slice_index_or seats.new n d).number ≡ n }
    ensures posted { (n : ℕ) (d : _) (none : _) → n < length seats.old
        → HasPosted chronicle.now (slice_index_or streams.now n none).items
        (slice_index_or seats.new n d) }
{
    let threads = seats.len();
    thread::for_each_mut(
        rt,
        seats,
        threads,
        &|n, seat|
            requires { (n < length streams.now) × (seat.now.number < MAX_SESSIONS)
                × ((none : _)
                → IsReady O.sound chronicle.now (slice_index_or streams.now n none).items
                seat.now) }
        { post_stream(rt, chronicle, seat, &streams[n], gate) },
    );
}

// One session makes its requests, in order.
fn post_stream<R: Wait, O: Object, G: Gate>(
    rt: &R,
    chronicle: &Chronicle<O>,
    seat: &mut Seat<O>,
    stream: &[O::Request],
    gate: &G,
)
    requires number { seat.old.number < MAX_SESSIONS }
    requires ready { IsReady O.sound chronicle.now stream.now seat.old }
    ensures posted { HasPosted chronicle.now stream.now seat.new }
    ensures number { seat.new.number ≡ seat.old.number }
{
    let session = seat.number() + 1;
    gate.pass(Stop::SessionStart(session));
    for request in stream {
        chronicle.call(rt, seat, *request);
        // Not while a turn is held: one session at its gate would then hold up all others, and two
        // could not meet.
        gate.pass(Stop::SessionCall(session));
    }
}
