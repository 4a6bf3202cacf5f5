// A board whose workers take turns in one thread.
ghost use Rattle.std.specs.Prelude.{◌≡◌, ◌≤◌, ◌<◌, ◌*◌, None, Some};
ghost use Rattle.std.specs.Prelude.{All, IfOk, IsTrue, length, replicate};
ghost use Rattle.bundle_rules.specs.{Bundles.sections_of, Demand.price_in};
ghost use Rattle.demand_api.specs.{Asking.ArePricesFor, Crowds.demand_of as crowd_demand};
ghost use Rattle.demand_api.specs.Views.{data_of};
ghost use Rattle.demand_workers.specs.Rounds.{prices_of};
ghost use Rattle.price_board.specs.{Openings.IsAskOf, declared.drawn.Draw.TheVariants.Done};

use crate::tests::rivals::rivals;
use crate::tests::workers::all_have_prices;
use bundle_rules::{Bundle, best_plain};
use demand_api::Crowd;
use market_units::{MAX_VERSIONS, MAX_WORKERS, NoMemory, SectionSet, StudentNo, Tokens};
use price_board::{Answers, Ask, Board, BoardSeat, Draw, Drawn, Posted, Round, Task};
use std::alloc::Global;
use std::marker::Model;
use std::process::Abort;
use std::sync::{Arc, Wait};
use std::test::Fail;

// What a worker drew since it posted last, and how often it posted.
type Note = (Option<Draw>, u32);

/// A round of four students who all want the one section, worked at its seats in one thread.
#[derive(Drop)]
pub struct Driver {
    board: Board,
    crowd: Arc<Crowd>,
    versions: Vec<Vec<Tokens>>,
    tasks: u32,
    seats: Vec<BoardSeat>,
    notes: Vec<Note>,
}

impl Model for Driver {
    ghost use Rattle.std.specs.Prelude.{⊤};
    ghost use Rattle.std.specs.Arc.{arc_value};
    ghost use Rattle.demand_tests.specs.Drivers.{IsDriven};

    ghost Value = { ⊤ };

    ghost view = { λ _. tt };

    ghost invariant = { λ d. IsDriven d.board (arc_value d.crowd) d.versions.items d.tasks
        d.seats.items d.notes.items };
}

// Whether what is asked is of one of so many sections.
fn are_asks(asks: &[Ask], sections: u16) -> bool
    ensures { IsTrue result → All (IsAskOf sections) asks.now }
{
    match asks {
        [] => true,
        [Ask::Counts, more @ ..] => are_asks(more, sections),
        [Ask::Exceeds { section, .. }, more @ ..] => {
            section.0 < sections && are_asks(more, sections)
        }
    }
}

// What is noted of so many workers that made no call.
fn blank(alloc: Global, workers: u16) -> Result<Vec<Note>, NoMemory>
    ensures { IfOk result (λ notes. notes.items ≡ replicate workers (None, 0)) }
{
    Ok(vec![in alloc; (None, 0); usize::from(workers)]?)
}

// The tasks of four students at so many versions.
fn tasks_of(versions: &[Vec<Tokens>]) -> u32
    requires { length versions.now ≤ MAX_VERSIONS }
    ensures { result ≡ length versions.now * 4 }
{
    versions.len() as u32 * 4
}

// Whether each worker was answered that there is no task.
fn are_done(notes: &[Note]) -> bool
    ensures { IsTrue result → All (λ note. note.0 ≡ Some Done) notes.now }
{
    notes.iter().all(|note| note.0 == Some(Draw::Done))
}

// Copies of these vectors of prices.
fn copies_of(alloc: Global, versions: &[Vec<Tokens>]) -> Result<Vec<Vec<Tokens>>, NoMemory>
    ensures { IfOk result (λ copies. prices_of copies.items ≡ prices_of versions.now) }
{
    let mut copies = Vec::new(alloc);
    for version in versions {
        copies.push(version.to_vec(alloc)?)?;
    }
    Ok(copies)
}

// What a student of the crowd takes.
fn taken(crowd: &Crowd, prices: &[Tokens], student: StudentNo) -> Bundle
    requires prices { ArePricesFor (data_of crowd.now) prices.now }
    requires student { student.0 < length crowd.now.menus.items }
    ensures { sections_of result
        ≡ crowd_demand (data_of crowd.now) (price_in prices.now) student.0 }
{
    let allowed = SectionSet::full(crowd.sections);
    let place = student.0 as usize;
    best_plain(&crowd.menus[place], prices, crowd.budgets[place], &allowed)
}

impl Driver {
    /// Opens the board of this round for so many workers.
    pub fn start<R: Abort>(
        rt: &R,
        alloc: Global,
        round: Round,
        workers: u16,
    ) -> Result<Driver, Fail> {
        let crowd = rivals(rt, alloc, 4);
        assert!(rt; crowd.menus.len() == 4);
        assert!(rt; crowd.sections == 1);
        let versions = copies_of(alloc, &round.versions)?;
        assert!(rt; all_have_prices(&crowd, &versions));
        assert!(rt; are_asks(&round.asks, 1));
        assert!(rt; 1 <= versions.len());
        assert!(rt; versions.len() <= MAX_VERSIONS);
        assert!(rt; round.asks.len() == versions.len());
        assert!(rt; 1 <= workers);
        assert!(rt; workers <= MAX_WORKERS);
        let tasks = tasks_of(&versions);
        let notes = blank(alloc, workers)?;
        let crowd = Arc::new(alloc, crowd)?;
        let round = Arc::new(
            alloc,
            Round {
                versions: round.versions,
                asks: round.asks,
                list: None,
            },
        )?;
        let (board, seats) = Board::start(alloc, Arc::try_clone(&crowd)?, round, workers)?;
        Ok(Driver {
            board,
            crowd,
            versions,
            tasks,
            seats,
            notes,
        })
    }

    /// What the worker draws, who holds no task.
    pub fn draw<R: Abort + Wait>(&mut self, rt: &R, worker: usize) -> Draw {
        assert!(rt; worker < self.seats.len());
        let (since, posts) = self.notes[worker];
        assert_eq!(rt; since, None);
        let drawn = self.board.draw(rt, &mut self.seats[worker]);
        self.notes[worker] = (Some(drawn), posts);
        drawn
    }

    /// Posts what the student takes for a task, which the worker holds if it holds any.
    pub fn post<R: Abort + Wait>(&mut self, rt: &R, worker: usize, drawn: Drawn) -> Posted {
        let Task {
            version,
            student,
            raised,
        } = drawn.task;
        let students = self.crowd.menus.len();
        assert!(rt; raised == None);
        assert!(rt; version < self.versions.len());
        assert!(rt; version < MAX_VERSIONS);
        assert!(rt; usize::from(student.0) < students);
        assert!(rt; drawn.number as usize == version * students + usize::from(student.0));
        assert!(rt; worker < self.seats.len());
        let (since, posts) = self.notes[worker];
        assert!(rt; since == None || since == Some(Draw::Task(drawn)));
        assert!(rt; posts < self.tasks);
        let bundle = taken(&self.crowd, &self.versions[version], student);
        let posted = self.board.post(rt, &mut self.seats[worker], drawn, bundle);
        self.notes[worker] = (None, posts + 1);
        posted
    }

    /// Closes the board once each worker was answered that there is no task.
    pub fn close<R: Abort>(self, rt: &R) -> Answers {
        assert!(rt; are_done(&self.notes));
        self.board.close(self.seats)
    }
}
