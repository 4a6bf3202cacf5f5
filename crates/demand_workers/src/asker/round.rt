// A round of workers over one price board.
ghost use Rattle.std.specs.Prelude.{◌≡◌, ◌≤◌, IfSome, length};
ghost use Rattle.demand_api.specs.{Asking.RoseBy, Views.data_of};
ghost use Rattle.price_board.specs.{Closings.AreSettled, Openings.terms_of, Terms.task_count};
ghost use Rattle.price_board.specs.Seats.{HasBegun};
ghost use Rattle.demand_workers.specs.Notes.{IsNoted};

use crate::note::Note;
use crate::pooled_demands::InquiryCount;
use crate::worker::{Lent, RoundWorker};
use demand_oracle::Workspace;
use market_edge::{Gate, Passed};
use market_units::MAX_WORKERS;
use price_board::{Answers, Board, BoardSeat};
use std::sync::{Mutex, Wait};
use std::thread::Threads;
use task_board::work_all;

/// What all workers find on a board, from the start of the first of them to the answers, and what a
/// worker that is alone noted. Of several, which mostly ask at no raised price, no note is kept. It
/// is given no allocator and has no error, so no memory is taken meanwhile. Nothing else works a
/// board, so each student that is asked is counted here.
pub(super) fn work_and_close<R: Threads + Wait + Sync>(
    rt: &R,
    inquiries: &mut InquiryCount,
    board: Board,
    mut seats: Vec<BoardSeat>,
    workspaces: &[Mutex<Workspace>],
    lent: &Lent,
    gate: &(dyn Gate + Sync),
) -> (Answers, Option<Note>)
    requires board { board.base ≡ terms_of lent.now.crowd.now lent.now.round.now }
    requires begun { HasBegun board seats.items (length seats.items) }
    requires enough { (1 ≤ length seats.items) × (length seats.items ≤ length workspaces.now)
        × (length workspaces.now ≤ MAX_WORKERS) }
    ensures counted { RoseBy (task_count result.0.terms) inquiries.old inquiries.new }
    ensures terms { result.0.terms ≡ terms_of lent.now.crowd.now lent.now.round.now }
    ensures settled { AreSettled result.0.terms result.0.marks }
    ensures noted { IfSome result.1 (IsNoted (data_of lent.now.crowd.now)) }
{
    let mut worker = RoundWorker {
        board: &board,
        workspaces,
        lent,
        left: None,
    };
    work_all(rt, seats.as_mut_slice(), &mut worker, &Passed { gate });
    let note = worker.left;
    let answers = board.close(seats);
    inquiries.add(&answers);
    (answers, note)
}
