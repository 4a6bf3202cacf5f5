// The workers of a board.
ghost use Rattle.std.specs.Prelude.{◌≡◌, ◌≤◌, ◌<◌, ℕ, IfSome, length, option_map};
ghost use Rattle.task_board.specs.Seats.{AreBack, BoardOf, HasBegun, HoldsNothing, IsFinished, IsFree};
ghost use Rattle.task_board.specs.Seats.{IsSeatOf, dones, posts};
ghost use Rattle.task_board.specs.Turns.{HasDrawn, HasPosted};

use crate::board::BoardSeat;
use crate::calls::Posted;
use crate::tasks::Tasks;
use market_edge::{Gate, Stop};
use market_units::MAX_WORKERS;
use std::marker::{Copy, Send, Sync};
use std::sync::Wait;
use std::thread::Threads;
use worker_threads::for_each_mut;

/// A worker of a board, which draws, answers and posts tasks by the names N that they have there.
pub trait Worker<T: Tasks, N: Copy> {
    /// The board.
    ghost board: { Self → BoardOf T.Terms T.Answer };

    /// At how many of its seats the worker can answer.
    ghost seats: { Self → ℕ };

    /// By these terms this names a task.
    ghost is_name: { T.Terms → N → Type 0 };

    /// The number of the named task.
    ghost number: { N → ℕ };

    /// By these terms this is a right answer to the named task.
    ghost is_right: { T.Terms → N → T.Answer → Type 0 };

    /// Gives the seat the first task that nobody drew and that is not over, and `None` exactly where
    /// there is none.
    fn draw<R: Wait>(&self, rt: &R, seat: &mut BoardSeat<T>) -> Option<N>
        requires seat { IsSeatOf T.rules (board self.now) seat.old }
        requires holds_nothing { HoldsNothing T.rules (board self.now) seat.old }
        requires not_done { dones seat.old.own ≡ 0 }
        ensures named { IfSome result (is_name (board self.now).base) }
        ensures drawn { HasDrawn T.rules (board self.now) seat.old (option_map number result)
            seat.new };

    /// A right answer to the task, found at the seat with this number.
    fn answer<R: Wait>(&mut self, rt: &R, seat: u16, task: N) -> T::Answer
        requires seat { seat < seats self.old }
        requires named { is_name (board self.old).base task }
        ensures right { is_right (board self.old).base task result }
        ensures board { board self.new ≡ board self.old }
        ensures seats { seats self.new ≡ seats self.old };

    /// Takes a right answer to the task.
    fn post<R: Wait>(&self, rt: &R, seat: &mut BoardSeat<T>, task: N, answer: T::Answer) -> Posted
        requires seat { IsSeatOf T.rules (board self.now) seat.old }
        requires named { is_name (board self.now).base task }
        requires right { is_right (board self.now).base task answer }
        requires post_left { posts seat.old.own < T.rules.count (board self.now).base }
        ensures { HasPosted T.rules (board self.now) seat.old (number task) answer result
            seat.new };
}

/// Workers work at the seats of their board, each in a thread of its own where one can be started;
/// one alone works in the caller's, and is changed by its answers. Of several, each is a copy, which
/// then goes.
pub fn work_all<
    R: Threads + Wait + Sync,
    T: Tasks + Send,
    N: Copy + Send + Sync,
    W: Worker<T, N> + Copy + Sync,
    G: Gate + Sync,
>(rt: &R, seats: &mut [BoardSeat<T>], worker: &mut W, gate: &G)
where
    T::Answer: Send + Sync,
    requires begun { HasBegun T.rules (W.board worker.old) seats.old (length seats.old) }
    requires enough { (1 ≤ length seats.old) × (length seats.old ≤ MAX_WORKERS)
        × (length seats.old ≤ W.seats worker.old) }
    ensures board { W.board worker.new ≡ W.board worker.old }
    ensures count { length seats.new ≡ length seats.old }
    ensures back { AreBack T.rules (W.board worker.old) seats.new }
{
    let threads = seats.len();
    if threads == 1 {
        work(rt, &mut seats[0], worker, gate);
        return;
    }
    let shared: &W = worker;
    for_each_mut(
        rt,
        seats,
        threads,
        &|_, seat|
            requires { (seat.now.number < MAX_WORKERS) × (seat.now.number < W.seats shared.now)
                × IsFree T.rules (W.board shared.now) seat.now }
            ensures { IsFinished T.rules (W.board shared.entry.now) seat.exit.now
                × (seat.exit.now.number ≡ seat.entry.now.number) }
        {
            let mut own = *shared;
            work(rt, seat, &mut own, gate)
        },
    );
}

// Draws one task after another, and posts its answer, until no task is left. The worker passes the
// gate before its first draw and after each of its posts; there its number is one more than its
// seat's.
fn work<R: Wait, T: Tasks, N: Copy, W: Worker<T, N>, G: Gate>(
    rt: &R,
    seat: &mut BoardSeat<T>,
    worker: &mut W,
    gate: &G,
)
    requires number { (seat.old.number < MAX_WORKERS) × (seat.old.number < W.seats worker.old) }
    requires free { IsFree T.rules (W.board worker.old) seat.old }
    ensures board { W.board worker.new ≡ W.board worker.old }
    ensures finished { IsFinished T.rules (W.board worker.old) seat.new }
    ensures number { seat.new.number ≡ seat.old.number }
{
    let number = seat.number();
    gate.pass(Stop::WorkerStart(number + 1));
    'tasks: while let Some(task) = worker.draw(rt, seat) {
        let answer = worker.answer(rt, number, task);
        worker.post(rt, seat, task, answer);
        // Not while a turn is held: one worker at its gate would then hold up all others, and two
        // could not meet.
        gate.pass(Stop::WorkerCall(number + 1));
    }
}
