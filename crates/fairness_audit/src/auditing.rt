// Rows of all students, by workers.
ghost use Rattle.std.specs.Prelude.{◌≡◌, ◌≤◌, ◌<◌, ℕ, IfOk, length, map, slice_index_or};
ghost use Rattle.std.specs.Arc.{arc_value};
ghost use Rattle.task_board.specs.{Kept.AreSettled, Seats.HasBegun};
ghost use Rattle.fairness_audit.specs.Allocations.{IsAllocation, allocation_of, student_count};
ghost use Rattle.fairness_audit.specs.{Asked.audit_rules, Rows.row, Rows.rows, Texts.AreRowsAmong};
ghost use Rattle.fairness_audit.specs.Views.{row_of};

use crate::allocation::Allocated;
use crate::row::EnvyRow;
use crate::tasks::AuditTasks;
use crate::worker::AuditWorker;
use bundle_rules::Bundle;
use demand_api::Crowd;
use market_edge::Gate;
use market_units::{MAX_STUDENTS, MAX_WORKERS, NoMemory};
use std::alloc::Global;
use std::sync::{Arc, Wait};
use std::thread::Threads;
use task_board::{Answers, Board, BoardSeat, work_all};

/// Whom each student of a crowd envies, where the students have these bundles: one for each, in
/// file order, which it may take. The rows are in file order, found by 1 to 16 workers in threads
/// of their own where those can be started, and the same for any number of them. Each worker passes
/// the gate before its first student and after each row. All memory is taken before the first
/// worker starts, and `NoMemory` is the only error.
pub fn audit<R: Threads + Wait + Sync, G: Gate + Sync>(
    rt: &R,
    alloc: Global,
    crowd: Arc<Crowd>,
    bundles: Arc<Vec<Bundle>>,
    workers: u16,
    gate: &G,
) -> Result<Vec<EnvyRow>, NoMemory>
    requires bundles { IsAllocation (allocation_of (arc_value crowd) (arc_value bundles).items) }
    requires workers { (1 ≤ workers) × (workers ≤ MAX_WORKERS) }
    ensures rows { IfOk result
        (λ found. map row_of found.items
        ≡ rows (allocation_of (arc_value crowd) (arc_value bundles).items)) }
    ensures among { IfOk result
        (λ found. AreRowsAmong (length (arc_value crowd).menus.items) (arc_value crowd).sections
        (map row_of found.items)) }
{
    let shared = Arc::try_clone(&crowd)?;
    let held = Arc::try_clone(&bundles)?;
    let tasks = AuditTasks::of(shared, held);
    let mut found = vec![in alloc; EnvyRow::empty(); crowd.menus.len()]?;
    let (board, seats) = Board::start(alloc, tasks, workers)?;
    let allocated = Allocated {
        crowd: &crowd,
        bundles: &bundles,
    };
    work_and_write(rt, board, seats, allocated, &mut found, gate);
    Ok(found)
}

// From the start of the first worker to the rows: it is given no allocator and has no error, so no
// memory is taken meanwhile.
fn work_and_write<R: Threads + Wait + Sync, G: Gate + Sync>(
    rt: &R,
    board: Board<AuditTasks>,
    mut seats: Vec<BoardSeat<AuditTasks>>,
    allocated: Allocated,
    rows: &mut [EnvyRow],
    gate: &G,
)
    requires board { board.base.allocation
        ≡ allocation_of allocated.crowd.now allocated.bundles.now }
    requires begun { HasBegun audit_rules board seats.items (length seats.items) }
    requires enough { (1 ≤ length seats.items) × (length seats.items ≤ MAX_WORKERS) }
    requires rows { length rows.old ≡ student_count board.base.allocation }
    requires few { length rows.old ≤ MAX_STUDENTS }
    ensures count { length rows.new ≡ length rows.old }
    ensures each { (i : ℕ) (d : EnvyRow) → i < length rows.new
        → row_of (slice_index_or rows.new i d) ≡ row board.base.allocation i }
{
    let mut worker = AuditWorker {
        board: &board,
        allocated,
    };
    work_all(rt, seats.as_mut_slice(), &mut worker, gate);
    let answers = board.close(seats);
    write_rows(&answers, rows);
}

// Writes the rows of all students, each of which is posted.
fn write_rows(answers: &Answers<AuditTasks>, rows: &mut [EnvyRow])
    requires settled { AreSettled audit_rules answers.now.terms answers.now.marks }
    requires count { length rows.old ≡ student_count answers.now.terms.allocation }
    requires few { length rows.old ≤ MAX_STUDENTS }
    ensures count { length rows.new ≡ length rows.old }
    ensures each { (i : ℕ) (d : EnvyRow) → i < length rows.new
        → row_of (slice_index_or rows.new i d) ≡ row answers.now.terms.allocation i }
{
    'students: for place in 0..rows.len() {
        rows[place] = match answers.answer(place as u32) {
            Some(row) => row,
            None => unreachable!(),
        };
    }
}
