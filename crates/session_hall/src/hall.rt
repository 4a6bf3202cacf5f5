// Holding a desk for sessions.
ghost use Rattle.std.specs.Prelude.{◌≡◌, ◌≤◌, length, map, IfOk};
ghost use Rattle.preference_desk.specs.DeskView.{names_of, entries_of};
ghost use Rattle.preference_desk.specs.Journals.{IsLegalJournal, MergesStreams};
ghost use Rattle.preference_desk.specs.{MarketNames.market_names, Shared.entry_of_step};
ghost use Rattle.session_hall.specs.Streams.{command_count, command_lists};

use crate::streams::count_commands;
use chronicle::Journal;
use course_catalog::Catalog;
use market_edge::Gate;
use market_units::{MAX_COMMANDS, MAX_SESSIONS, NoMemory};
use preference_desk::Desk;
use std::alloc::Global;
use std::sync::Wait;
use std::thread::Threads;
use stream_posting::post_streams;
use student_roll::Roll;
use utility_language::Command;

/// A desk to which all sessions have posted, and the one history of their calls.
#[derive(Drop)]
pub struct ClosedDesk {
    pub desk: Desk,
    /// The calls in their order. Seat n is session n + 1.
    pub journal: Journal<Desk>,
}

/// Holds a desk for the sections of the catalogue and the students of the roll. Session n posts the
/// n-th stream in its order, from a thread of its own where one can be started; sessions are
/// numbered from 1. Each passes the gate before its first command and after each reply. All memory
/// is taken before a session starts, and `NoMemory` is the only error.
pub fn hold<R: Threads + Wait + Sync, G: Gate + Sync>(
    rt: &R,
    alloc: Global,
    catalog: &Catalog,
    roll: &Roll,
    streams: &[Vec<Command>],
    gate: &G,
) -> Result<ClosedDesk, NoMemory>
    requires sessions { (1 ≤ length streams.now) × (length streams.now ≤ MAX_SESSIONS) }
    requires commands { command_count streams.now ≤ MAX_COMMANDS }
    ensures names { IfOk result
        (λ closed. names_of closed.desk ≡ market_names catalog.now.sections roll.now.students) }
    ensures entries { IfOk result
        (λ closed. entries_of closed.desk ≡ map entry_of_step closed.journal) }
    ensures legal { IfOk result
        (λ closed. IsLegalJournal (market_names catalog.now.sections roll.now.students)
        (map entry_of_step closed.journal)) }
    ensures merges { IfOk result
        (λ closed. MergesStreams (command_lists streams.now) (map entry_of_step closed.journal)) }
{
    let lines = count_commands(streams);
    let desk = Desk::prepare(alloc, catalog, roll, lines)?;
    let (desk, journal) = post_streams(rt, alloc, desk, streams, gate)?;
    Ok(ClosedDesk { desk, journal })
}
