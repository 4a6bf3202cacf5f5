// A round of listed students.
ghost use Rattle.std.specs.Prelude.{◌≡◌, ◌≤◌, ◌<◌, ◌^◌, IfOk, IsSome, length, slice_index_or};
ghost use Rattle.bundle_rules.specs.Bundles.{sections_of};
ghost use Rattle.demand_api.specs.Asking.{RoseAtMost, RoseBy};
ghost use Rattle.price_board.specs.Asked.{task_at};
ghost use Rattle.price_board.specs.Terms.{demand_at, task_count};
ghost use Rattle.demand_workers.specs.Found.{AreRead, tasks_of};

use super::Asker;
use super::round::work_and_close;
use crate::found::Found;
use crate::inquiry::Inquiries;
use crate::pooled_demands::InquiryCount;
use crate::remembered::Remembered;
use crate::worker::Lent;
use bundle_rules::Bundle;
use market_edge::AnyGate;
use market_units::NoMemory;
use price_board::{Answers, Board};
use std::sync::{Arc, Wait};
use std::thread::Threads;

// So many inquiries are worth a worker of their own, unless each student is asked.
const WORTHWHILE: usize = 3;

impl Asker<'_, AnyGate<'_>> {
    /// What the listed students take, found by as many workers of the pool as the inquiries are
    /// worth, or by its first alone, in the caller's thread, where they are few. All memory is taken
    /// before the first worker starts, and the only error is that it was not given.
    pub(crate) fn inquire<R: Threads + Wait + Sync>(
        &self,
        rt: &R,
        inquiries: &mut InquiryCount,
        listed: Inquiries,
    ) -> Result<Found, NoMemory>
        ensures inquiries { RoseAtMost (length (tasks_of listed)) inquiries.old inquiries.new }
        ensures counted { IfOk result
            (λ found. RoseBy (length (tasks_of listed)) inquiries.old inquiries.new) }
        ensures found { IfOk result (λ found. found.inquiries ≡ listed) }
    {
        let remembered: &Remembered = &listed.remembered;
        let asked = listed.list().len();
        let workers = workers_for(asked, remembered.bundles.len(), self.pool.workers);
        let mut bundles = vec![in self.alloc; Bundle::empty(); asked]?;
        let crowd = Arc::try_clone(&remembered.crowd)?;
        let round = Arc::try_clone(&listed.round)?;
        let (board, seats) = Board::start(self.alloc, crowd, round, workers)?;
        let lent = Lent {
            crowd: &remembered.crowd,
            round: &listed.round,
            allowed: &remembered.allowed,
            remembered: Some(remembered),
            kept: listed.kept,
        };
        let workspaces = self.pool.workspaces();
        let (answers, note) = work_and_close(
            rt, inquiries, board, seats, workspaces, &lent, self.gate,
        );
        read_list(&answers, &mut bundles);
        Ok(Found {
            inquiries: listed,
            bundles,
            note,
        })
    }
}

// How many workers are started: one for each three inquiries, but one at least, and all where there
// are as many inquiries as students.
fn workers_for(inquiries: usize, students: usize, workers: u16) -> u16
    requires { 1 ≤ workers }
    ensures { (1 ≤ result) × (result ≤ workers) }
{
    let worth = inquiries / WORTHWHILE;
    if inquiries >= students || worth >= usize::from(workers) {
        return workers;
    }
    if worth == 0 {
        return 1;
    }
    worth as u16
}

// Writes what was posted for each task of the list.
fn read_list(answers: &Answers, found: &mut [Bundle])
    requires listed { IsSome answers.now.terms.list }
    requires count { length found.old ≡ task_count answers.now.terms }
    requires few { task_count answers.now.terms < 2 ^ 32 }
    ensures { AreRead answers.now.terms found.new }
{
    'tasks: for place in 0..found.len() {
        found[place] = posted(answers, place as u32);
    }
}

// What was posted for a task of the list.
fn posted(answers: &Answers, number: u32) -> Bundle
    requires listed { IsSome answers.now.terms.list }
    requires number { number < task_count answers.now.terms }
    ensures { sections_of result
        ≡ demand_at answers.now.terms (task_at answers.now.terms number) }
{
    match answers.answer(number) {
        Some(bundle) => bundle,
        None => unreachable!(),
    }
}
