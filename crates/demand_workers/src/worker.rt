// A worker of a round.
ghost use Rattle.std.specs.Prelude.{◌≡◌, ◌≤◌, ◌<◌, ℕ, IfSome, length, nat_lt};
ghost use Rattle.std.specs.FinSet as set;
ghost use Rattle.bundle_rules.specs.{Bundles.sections_of, Demand.price_in};
ghost use Rattle.demand_api.specs.{Asking.ArePricesFor, Crowds.demand_of, Views.data_of};
ghost use Rattle.price_board.specs.{Openings.terms_of, Seats.IsDrawn, Tasks.IsTask};
ghost use Rattle.price_board.specs.{Tasks.taken_at, Terms.demand_at};
ghost use Rattle.price_board.specs.contracts.terms.Terms as terms;
ghost use Rattle.demand_workers.specs.{Answering.answer_to, Notes.IsNoted, Views.crowd_of};
ghost use Rattle.demand_workers.specs.Rounds.{AreVersionsFor, prices_of};
ghost use Rattle.std.proofs.Props.{props};
ghost use Rattle.std.specs.Coded.{codes};
ghost use Rattle.bundle_rules.specs.contracts.menu.Rated as rated;

use crate::beside::asked_beside;
use crate::note::Note;
use crate::question::Question;
use crate::remembered::Remembered;
use crate::taking::listed_again;
use crate::trial::{ROOM, raised_prices};
use bundle_rules::Bundle;
use demand_api::Crowd;
use demand_oracle::{Workspace, demand};
use market_units::{SectionSet, StudentNo, Tokens};
use price_board::{Board, BoardSeat, Draw, Drawn, Posted, Round, RoundTasks, Task};
use std::sync::{Mutex, Wait};
use task_board::Worker;

/// What the workers of a round are lent: the crowd, the round, and what is remembered of the crowd,
/// if anything is.
#[derive(Clone, Copy)]
pub(crate) struct Lent<'a> {
    pub crowd: &'a Crowd,
    pub round: &'a Round,
    // All sections of the crowd.
    pub allowed: &'a SectionSet,
    pub remembered: Option<&'a Remembered>,
    /// How many best bundles are noted of a student that is asked at a raised price, 1 to 8.
    pub kept: usize,
    pub ghost priced: { AreVersionsFor (data_of crowd.now) round.now.versions.items },
    pub ghost every: { (s : ℕ) → set.contains allowed.now s ≡ nat_lt s crowd.now.sections },
    pub ghost same: { IfSome remembered (λ memory. crowd_of memory.now ≡ data_of crowd.now) } by { Prim.hlevel (props, codes, rated.the_row.coded) },
    pub ghost some: { (1 ≤ kept) × (kept ≤ 8) },
}

/// A worker of a round: its board, the workspaces, of which it takes that of its seat, and what it is
/// lent. What it finds of the last student that is asked at a raised price it leaves behind as a
/// note: no post tells it.
#[derive(Clone, Copy)]
pub(crate) struct RoundWorker<'a> {
    pub board: &'a Board,
    pub workspaces: &'a [Mutex<Workspace>],
    pub lent: &'a Lent<'a>,
    pub left: Option<Note>,
    pub ghost asked: { board.now.base ≡ terms_of lent.now.crowd.now lent.now.round.now } by { Prim.hlevel (codes, terms.the_row.coded) },
    pub ghost noted: { IfSome left (IsNoted (data_of lent.now.crowd.now)) } by { Prim.hlevel props },
}

/// It draws a student at a version of the prices, and posts both with what the student takes there.
impl Worker<RoundTasks, Drawn> for RoundWorker<'_> {
    ghost board = { λ worker. worker.board.now };

    ghost seats = { λ worker. length worker.workspaces.now };

    ghost is_name = { IsDrawn };

    ghost number = { λ drawn. drawn.number };

    ghost is_right = { λ terms drawn bundle. sections_of bundle ≡ demand_at terms drawn.task };

    fn draw<R: Wait>(&self, rt: &R, seat: &mut BoardSeat) -> Option<Drawn> {
        match self.board.draw(rt, seat) {
            Draw::Task(drawn) => Some(drawn),
            Draw::Done => None,
        }
    }

    fn answer<R: Wait>(&mut self, rt: &R, seat: u16, drawn: Drawn) -> Bundle {
        let mut workspace = self.workspaces[usize::from(seat)].lock(rt);
        taken_at(&mut workspace, self.lent, drawn.task, &mut self.left)
    }

    fn post<R: Wait>(&self, rt: &R, seat: &mut BoardSeat, drawn: Drawn, bundle: Bundle) -> Posted {
        self.board.post(rt, seat, drawn, bundle)
    }
}

// What the student of a task takes at its prices, of all sections. Of a student of whom something
// is remembered the best bundles at a raised price are noted.
fn taken_at(workspace: &mut Workspace, lent: &Lent, task: Task, left: &mut Option<Note>) -> Bundle
    requires task { IsTask (data_of lent.now.crowd.now)
        (length lent.now.round.now.versions.items) task }
    requires noted { IfSome left.old (IsNoted (data_of lent.now.crowd.now)) }
    ensures taken { sections_of result
        ≡ taken_at (data_of lent.now.crowd.now) (prices_of lent.now.round.now.versions.items)
        task }
    ensures noted { IfSome left.new (IsNoted (data_of lent.now.crowd.now)) }
{
    let prices: &[Tokens] = &lent.round.versions[task.version];
    let student = task.student;
    let Some(raised) = task.raised else {
        return taken(workspace, lent, prices, student);
    };
    let mut room = [Tokens(0); ROOM];
    let prices = raised_prices(&mut room, prices, raised.0, raised.1);
    let Some(remembered) = lent.remembered else {
        return demanded(workspace, lent, prices, student);
    };
    let question = Question {
        remembered,
        prices,
        student,
    };
    let best = listed_again(workspace, &question, lent.kept);
    *left = Some(question.note(best));
    question.first_of(&best)
}

// What a student takes at these prices, of all sections: remembered, or asked beside what is
// remembered.
fn taken(workspace: &mut Workspace, lent: &Lent, prices: &[Tokens], student: StudentNo) -> Bundle
    requires prices { ArePricesFor (data_of lent.now.crowd.now) prices.now }
    requires student { student.0 < length lent.now.crowd.now.menus.items }
    ensures { sections_of result
        ≡ demand_of (data_of lent.now.crowd.now) (price_in prices.now) student.0 }
{
    let Some(remembered) = lent.remembered else {
        return demanded(workspace, lent, prices, student);
    };
    let question = Question {
        remembered,
        prices,
        student,
    };
    match kept_by(lent, &question) {
        Some(bundle) => bundle,
        None => asked_beside(workspace, &question),
    }
}

// What is remembered of the student, where it surely takes that. A list has nobody of whom that is
// known.
fn kept_by(lent: &Lent, question: &Question) -> Option<Bundle>
    ensures { IfSome result (λ bundle. sections_of bundle ≡ answer_to question.now) }
{
    match &lent.round.list {
        Some(_) => None,
        None => question.kept(),
    }
}

// What a student takes at these prices, of all sections, where the search begins with nothing.
fn demanded(workspace: &mut Workspace, lent: &Lent, prices: &[Tokens], student: StudentNo) -> Bundle
    requires prices { ArePricesFor (data_of lent.now.crowd.now) prices.now }
    requires student { student.0 < length lent.now.crowd.now.menus.items }
    ensures { sections_of result
        ≡ demand_of (data_of lent.now.crowd.now) (price_in prices.now) student.0 }
{
    let place = usize::from(student.0);
    demand(
        workspace,
        &lent.crowd.menus[place],
        prices,
        lent.crowd.budgets[place],
        lent.allowed,
    )
}
