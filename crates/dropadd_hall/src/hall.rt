// Opening a desk to sessions.
ghost use Rattle.std.specs.Prelude.{◌≡◌, ◌≤◌, All, length, IfOk};
ghost use Rattle.chronicle.specs.History.{IsLegal, state_after as state_after_steps};
ghost use Rattle.dropadd_desk.specs.HallView.{market_of, room_of, state_of};
ghost use Rattle.dropadd_desk.specs.Replies.{NamesInRange};
ghost use Rattle.dropadd_desk.specs.Shared.{is_sound, reply_to, state_after};
ghost use Rattle.stream_posting.specs.Streams.{MergesCalls};
ghost use Rattle.dropadd_hall.specs.Streams.{request_count, request_lists};

use chronicle::Journal;
use dropadd_desk::{HallCommand, HallDesk};
use market_edge::Gate;
use market_units::{MAX_SESSIONS, NoMemory};
use std::alloc::Global;
use std::sync::Wait;
use std::thread::Threads;
use stream_posting::post_streams;

/// A desk to which all sessions have made their requests, and the one history of their calls.
#[derive(Drop)]
pub struct ClosedHall {
    pub desk: HallDesk,
    /// The calls in their order. Seat n is session n + 1.
    pub journal: Journal<HallDesk>,
}

/// Opens the desk to sessions. Session n makes the requests of the n-th stream in its order, from a
/// thread of its own where one can be started; sessions are numbered from 1. Each passes the gate
/// before its first request and after each reply. All memory is taken before a session starts, and
/// `NoMemory` is the only error.
pub fn open_hall<R: Threads + Wait + Sync, G: Gate + Sync>(
    rt: &R,
    alloc: Global,
    desk: HallDesk,
    streams: &[Vec<HallCommand>],
    gate: &G,
) -> Result<ClosedHall, NoMemory>
    requires sessions { (1 ≤ length streams.now) × (length streams.now ≤ MAX_SESSIONS) }
    requires room { request_count streams.now ≤ room_of desk }
    ensures market { IfOk result (λ closed. market_of closed.desk ≡ market_of desk) }
    ensures legal { IfOk result
        (λ closed. IsLegal is_sound state_after reply_to (market_of desk) (state_of desk)
        closed.journal) }
    ensures merges { IfOk result
        (λ closed. MergesCalls (request_lists streams.now) closed.journal) }
    ensures named { IfOk result
        (λ closed. All (λ step. NamesInRange (market_of desk) step.reply) closed.journal) }
    ensures state { IfOk result
        (λ closed. state_of closed.desk
        ≡ state_after_steps state_after (market_of desk) (state_of desk) closed.journal) }
{
    let (desk, journal) = post_streams(rt, alloc, desk, streams, gate)?;
    Ok(ClosedHall { desk, journal })
}
