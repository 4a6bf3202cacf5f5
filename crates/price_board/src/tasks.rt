// The tasks of a round, and what their posted bundles add up to.
ghost use Rattle.std.specs.Prelude.{◌≡◌, ◌<◌, ◌≤◌, ◌^◌, IfOk, IfSome, None, is_some, length, replicate, slice_index_or};
ghost use Rattle.std.specs.Arc.{arc_value};
ghost use Rattle.task_board.specs.Openings.{no_answers};
ghost use Rattle.price_board.specs.Asked.{asked_of, round_rules};
ghost use Rattle.price_board.specs.Openings.{list_of, terms_of, IsRound};
ghost use Rattle.price_board.specs.{Settling.ask_of, Tallies.exceeds_by, Tallies.AreNoted};
ghost use Rattle.price_board.specs.Terms.{student_count, task_count, version_count};
ghost use Rattle.market_units.specs.declared.limits.TheConstants.{MAX_STUDENTS};

use crate::round::{Ask, Round};
use crate::tally::{Tally, exceeds_by, settles, with_bundle};
use crate::terms::Terms;
use bundle_rules::Bundle;
use demand_api::Crowd;
use market_units::NoMemory;
use std::alloc::Global;
use std::sync::Arc;
use task_board::{Mark, Tasks};

/// The tasks of a round: one for each version and student, in this order, or those of its list.
#[derive(Drop)]
pub struct RoundTasks {
    crowd: Arc<Crowd>,
    round: Arc<Round>,
    students: u32,
    count: u32,
    // One for each version where there is no list.
    tallies: Vec<Tally>,
    ghost students_are: { students ≡ student_count (terms_of (arc_value crowd) (arc_value round)) },
    ghost few_students: { students ≤ MAX_STUDENTS },
    ghost counted: { count ≡ task_count (terms_of (arc_value crowd) (arc_value round)) },
    ghost asked: { list_of (arc_value round).list ≡ None → length (arc_value round).asks.items ≡ version_count (terms_of (arc_value crowd) (arc_value round)) },
    ghost tallied: { list_of (arc_value round).list ≡ None → length tallies.items ≡ version_count (terms_of (arc_value crowd) (arc_value round)) },
}

// How many students there are.
fn students_in(crowd: &Crowd) -> u32
    ensures all { (round : Round) → result ≡ student_count (terms_of crowd.now round) }
    ensures few { result ≤ MAX_STUDENTS }
{
    crowd.menus.len() as u32
}

// How many tasks a round has. The only error is that they are more than 32 bits can number, for
// which no memory is enough.
fn tasks_in(crowd: &Crowd, round: &Round) -> Result<u32, NoMemory>
    requires { IsRound (terms_of crowd.now round.now) }
    ensures { IfOk result (λ count. count ≡ task_count (terms_of crowd.now round.now)) }
{
    match &round.list {
        None => Ok(round.versions.len() as u32 * students_in(crowd)),
        Some(list) => match u32::try_from(list.len()) {
            Ok(count) => Ok(count),
            Err(_) => Err(NoMemory),
        },
    }
}

// The tally of each version, of whose so many students none was posted, where there is no list. The
// only error is that memory was not given.
fn first_tallies(alloc: Global, round: &Round, students: u32) -> Result<Vec<Tally>, NoMemory>
    ensures { IfOk result
        (λ tallies. list_of round.now.list ≡ None
        → tallies.items
        ≡ replicate (length round.now.versions.items) (record {
          unfilled = students;
          count = 0;
        })) }
{
    let tally = Tally {
        unfilled: students,
        count: 0,
    };
    match &round.list {
        None => Ok(vec![in alloc; tally; round.versions.len()]?),
        Some(_) => Ok(Vec::new(alloc)),
    }
}

impl RoundTasks {
    /// The tasks of this round of the crowd, of which nothing was posted. The only error is that
    /// memory was wanted and not given.
    pub(crate) fn make(
        alloc: Global,
        crowd: Arc<Crowd>,
        round: Arc<Round>,
    ) -> Result<RoundTasks, NoMemory>
        requires round { IsRound (terms_of (arc_value crowd) (arc_value round)) }
        ensures terms { IfOk result
            (λ tasks. terms_of (arc_value tasks.crowd) (arc_value tasks.round)
            ≡ terms_of (arc_value crowd) (arc_value round)) }
        ensures fresh { IfOk result
            (λ tasks. AreNoted (list_of (arc_value round).list)
            (terms_of (arc_value crowd) (arc_value round)) tasks.tallies.items
            (no_answers round_rules (terms_of (arc_value crowd) (arc_value round)))) }
        ensures few { IfOk result
            (λ tasks. task_count (terms_of (arc_value crowd) (arc_value round)) < 2 ^ 32) }
    {
        let students = students_in(&crowd);
        let count = tasks_in(&crowd, &round)?;
        let tallies = first_tallies(alloc, &round, students)?;
        Ok(RoundTasks {
            crowd,
            round,
            students,
            count,
            tallies,
        })
    }

    /// How many students there are.
    pub(crate) fn students(&self) -> u32
        ensures { result ≡ self.now.students }
    {
        self.students
    }

    // The version of a task, and what is asked of it, where there is no list.
    fn asked_of(&self, task: u32) -> Option<(usize, Ask)>
        requires { task
            < task_count (terms_of (arc_value self.now.crowd) (arc_value self.now.round)) }
        ensures asked { result
            ≡ asked_of (list_of (arc_value self.now.round).list)
            (terms_of (arc_value self.now.crowd) (arc_value self.now.round)) task }
        ensures below { IfSome result (λ asked. asked.0 < length self.now.tallies.items) }
    {
        let round: &Round = &self.round;
        if let Some(_) = &round.list {
            return None;
        }
        let version = (task / self.students) as usize;
        Some((version, round.asks[version]))
    }

    /// Whether the tasks are those of a list.
    pub(crate) fn has_list(&self) -> bool
        ensures { result ≡ is_some (list_of (arc_value self.now.round).list) }
    {
        let round: &Round = &self.round;
        match &round.list {
            Some(_) => true,
            None => false,
        }
    }

    /// Of an `Exceeds` version, whether more of its posted bundles than the limit have the section.
    pub(crate) fn exceeds(&self, version: usize) -> Option<bool>
        requires each { list_of (arc_value self.now.round).list ≡ None }
        ensures none { length self.now.tallies.items ≤ version → result ≡ None }
        ensures some { (d : Tally) → version < length self.now.tallies.items
            → result
            ≡ exceeds_by (ask_of (arc_value self.now.round).asks.items version)
            (slice_index_or self.now.tallies.items version d) }
    {
        if version >= self.tallies.len() {
            return None;
        }
        exceeds_by(self.round.asks[version], self.tallies[version])
    }
}

impl Tasks for RoundTasks {
    ghost use Rattle.price_board.specs.Lasting.{settled_last};

    type Terms = Terms;

    type Answer = Bundle;

    ghost rules = { round_rules };

    ghost terms = { λ tasks. terms_of (arc_value tasks.crowd) (arc_value tasks.round) };

    ghost noted = { λ tasks answers. AreNoted (list_of (arc_value tasks.round).list) (terms_of (arc_value tasks.crowd) (arc_value tasks.round)) tasks.tallies.items answers };

    fn count(&self) -> u32 {
        self.count
    }

    fn is_over(&self, _marks: &[Mark<Bundle>], task: u32) -> bool {
        match self.asked_of(task) {
            Some((version, ask)) => settles(ask, self.tallies[version]),
            None => false,
        }
    }

    fn tally(&self, _marks: &[Mark<Bundle>], task: u32) -> u32 {
        match self.asked_of(task) {
            Some((version, _)) => self.tallies[version].count,
            None => 0,
        }
    }

    fn note(&mut self, _marks: &[Mark<Bundle>], task: u32, bundle: Bundle) {
        if let Some((version, ask)) = self.asked_of(task) {
            let tally = self.tallies[version];
            self.tallies[version] = with_bundle(ask, tally, &bundle);
        }
    }

    ghost lasting = { settled_last };
}
