// The board that workers share.
ghost use Rattle.std.specs.Prelude.{◌≡◌, ◌≤◌, ◌<◌, ◌^◌, ℕ, IfOk, IsSome, None, length};
ghost use Rattle.std.specs.Arc.{arc_value};
ghost use Rattle.bundle_rules.specs.Bundles.{sections_of};
ghost use Rattle.task_board.specs.{Closings.IsEndOf, Fates.IsTaken, Fates.IsWorked};
ghost use Rattle.task_board.specs.{Seats.dones, Seats.posts, Turns.HasDrawn, Turns.HasPosted};
ghost use Rattle.price_board.specs.Asked.{round_rules, task_at};
ghost use Rattle.price_board.specs.Closings.{AreSettled};
ghost use Rattle.price_board.specs.Openings.{terms_of, IsRound};
ghost use Rattle.price_board.specs.Rows.{number_drawn, number_of};
ghost use Rattle.price_board.specs.Seats.{AreBack, HasBegun, HoldsNothing, IsNumbered, IsSeatOf};
ghost use Rattle.price_board.specs.Seats.{IsWithin};
ghost use Rattle.price_board.specs.{Settling.ask_of, Tasks.IsTask};
ghost use Rattle.price_board.specs.Terms.{demand_at, student_count, task_count, version_count};

use crate::answers::Answers;
use crate::drawn::{Draw, Drawn};
use crate::round::{Ask, Round, Task};
use crate::tasks::RoundTasks;
use bundle_rules::Bundle;
use demand_api::Crowd;
use market_units::{MAX_WORKERS, NoMemory, StudentNo};
use std::alloc::Global;
use std::marker::Model;
use std::sync::{Arc, Wait};
use task_board::{Board as TaskBoard, BoardSeat as TaskSeat, Posted};

/// The right to draw and post on a board, which one thread uses at a time.
pub type BoardSeat = TaskSeat<RoundTasks>;

/// A round's tasks, which workers draw and whose bundles they post, each from its seat. Contracts
/// see it as the origin of its chronicle: the terms, the opening, and what each seat was allotted.
#[derive(Drop)]
pub struct Board {
    board: TaskBoard<RoundTasks>,
    round: Arc<Round>,
    students: u32,
}

impl Model for Board {
    ghost use Rattle.std.specs.Arc.{arc_value};
    ghost use Rattle.chronicle.specs.contracts.origin.Origin as origin;
    ghost use Rattle.task_board.specs.contracts.data.Progress as progress;
    ghost use Rattle.bundle_rules.specs.contracts.bundle.Bundle as bundle;
    ghost use Rattle.price_board.specs.contracts.terms.Terms as terms;
    ghost use Rattle.price_board.specs.{Boards.IsBoard, Seats.RoundBoard};

    ghost Value = { RoundBoard };

    ghost coded = { (origin.the_row terms.the_row (progress.the_row bundle.the_row)).coded };

    ghost view = { λ b. b.board };

    ghost invariant = { λ b. IsBoard b.board.base (arc_value b.round) b.students };
}

impl Board {
    /// A board of this round, of which nothing is drawn or filled, with a seat for each of 1 to 16
    /// workers, numbered from 0. All memory is taken here; the only error is that it was not given.
    pub fn start(
        alloc: Global,
        crowd: Arc<Crowd>,
        round: Arc<Round>,
        workers: u16,
    ) -> Result<(Board, Vec<BoardSeat>), NoMemory>
        requires round { IsRound (terms_of (arc_value crowd) (arc_value round)) }
        requires workers { (1 ≤ workers) × (workers ≤ MAX_WORKERS) }
        ensures terms { IfOk result
            (λ r. r.0.base ≡ terms_of (arc_value crowd) (arc_value round)) }
        ensures begun { IfOk result (λ r. HasBegun r.0 r.1.items workers) }
        ensures few { IfOk result (λ r. task_count r.0.base < 2 ^ 32) }
    {
        let tasks = RoundTasks::make(alloc, crowd, Arc::try_clone(&round)?)?;
        let students = tasks.students();
        let (board, seats) = TaskBoard::start(alloc, tasks, workers)?;
        Ok((
            Board {
                board,
                round,
                students,
            },
            seats,
        ))
    }

    /// Gives the seat the first task, by version and then student, or in the order of the list, that
    /// is neither drawn nor of a settled version, and `Done` exactly where there is none. It takes
    /// no memory, and may wait for its turn.
    pub fn draw<R: Wait>(&self, rt: &R, seat: &mut BoardSeat) -> Draw
        requires seat { IsSeatOf self.now seat.old }
        requires holds_nothing { HoldsNothing self.now seat.old }
        requires not_done { dones seat.old.own ≡ 0 }
        ensures within { IsWithin self.now.base result }
        ensures drawn { HasDrawn round_rules self.now seat.old (number_drawn result) seat.new }
    {
        match self.board.draw(rt, seat) {
            Some(number) => Draw::Task(Drawn {
                number,
                task: self.task_at(number),
            }),
            None => Draw::Done,
        }
    }

    // The task with this number.
    fn task_at(&self, number: u32) -> Task
        requires { number < task_count self.now.base }
        ensures task { result ≡ task_at self.now.base number }
        ensures within { IsTask self.now.base.crowd (version_count self.now.base) result }
    {
        let round: &Round = &self.round;
        match &round.list {
            Some(list) => list[number as usize],
            None => Task {
                version: (number / self.students) as usize,
                student: StudentNo((number % self.students) as u16),
                raised: None,
            },
        }
    }

    /// Takes what the student of the task takes at the prices of the task. `NotYours` comes exactly
    /// where the seat does not hold the task, and changes nothing but the posts left; `Late` exactly
    /// where it does and the version is settled. In both other cases the seat no longer holds the
    /// task. It takes no memory, and may wait for its turn.
    pub fn post<R: Wait>(
        &self,
        rt: &R,
        seat: &mut BoardSeat,
        drawn: Drawn,
        bundle: Bundle,
    ) -> Posted
        requires seat { IsSeatOf self.now seat.old }
        requires task { IsNumbered self.now.base drawn }
        requires bundle { sections_of bundle ≡ demand_at self.now.base drawn.task }
        requires post_left { posts seat.old.own < task_count self.now.base }
        ensures { HasPosted round_rules self.now seat.old drawn.number bundle result seat.new }
    {
        self.board.post(rt, seat, drawn.number, bundle)
    }

    /// Ends the round: with all seats back, in any order, of which none holds a task and each was
    /// answered `Done`, the answers come out, with the one history of all calls.
    pub fn close(self, seats: Vec<BoardSeat>) -> Answers
        requires back { AreBack self seats.items }
        ensures end { IsEndOf round_rules self seats.items result }
        ensures settled { AreSettled result.terms result.marks }
        ensures counts { self.base.list ≡ None
            → (version student : ℕ) → version < version_count self.base
            → student < student_count self.base → ask_of self.base.asks version ≡ Ask.Counts
            → IsWorked round_rules IsTaken self.base result.history
            (number_of self.base version student) }
        ensures listed { IsSome self.base.list
            → (number : ℕ) → number < task_count self.base
            → IsWorked round_rules IsTaken self.base result.history number }
    {
        let students = self.students;
        let answers = self.board.close(seats);
        Answers { answers, students }
    }
}
