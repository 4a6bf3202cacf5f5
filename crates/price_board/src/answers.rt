// What a closed board answers.
use crate::tasks::RoundTasks;
use bundle_rules::Bundle;
use chronicle::Journal;
use market_units::StudentNo;
use std::marker::Model;
use task_board::{Answers as TaskAnswers, BoardState, Tasks};

/// The answers of a round whose versions are all settled, with the history that they are read from.
#[derive(Drop)]
pub struct Answers {
    pub(crate) answers: TaskAnswers<RoundTasks>,
    pub(crate) students: u32,
}

impl Model for Answers {
    ghost use Rattle.std.specs.Prelude.{◌≡◌, length};
    ghost use Rattle.bundle_rules.specs.declared.bundle.Bundle.{Bundle};
    ghost use Rattle.bundle_rules.specs.contracts.bundle.Bundle as bundle;
    ghost use Rattle.task_board.specs.declared.data.AnswersData.{AnswersData};
    ghost use Rattle.task_board.specs.contracts.data.AnswersData as ended;
    ghost use Rattle.price_board.specs.{Closings.IsEnded, declared.terms.Terms.Terms};
    ghost use Rattle.price_board.specs.contracts.terms.Terms as terms;

    ghost Value = { AnswersData Terms Bundle };

    ghost coded = { (ended.the_row terms.the_row bundle.the_row).coded };

    ghost view = { λ a. a.answers };

    ghost invariant = { λ a. IsEnded a.answers.terms a.answers.marks a.students };
}

impl Answers {
    ghost use Rattle.std.specs.Prelude.{◌≡◌, ◌<◌, None, IsSome, IfSome};
    ghost use Rattle.bundle_rules.specs.Bundles.{sections_of};
    ghost use Rattle.task_board.specs.Marks.{answer_in, mark_at};
    ghost use Rattle.price_board.specs.declared.round.Ask.TheVariants as ask;
    ghost use Rattle.price_board.specs.{Asked.task_at, Closings.exceeds_in, Rows.posted_in};
    ghost use Rattle.price_board.specs.Settling.{ask_of};
    ghost use Rattle.price_board.specs.Terms.{demand_at, demand_of, student_count, task_count};
    ghost use Rattle.price_board.specs.Terms.{version_count};

    /// What the student takes at the prices of the version, where it was posted: for every student of
    /// a `Counts` version. `None` of a round with a list.
    pub fn bundle(&self, version: u8, student: StudentNo) -> Option<Bundle>
        ensures posted { result
            ≡ posted_in self.now.terms.list self.now.terms self.now.marks version student.0 }
        ensures some { self.now.terms.list ≡ None → version < version_count self.now.terms
            → student.0 < student_count self.now.terms
            → ask_of self.now.terms.asks version ≡ ask.Counts → IsSome result }
        ensures right { IfSome result
            (λ bundle. sections_of bundle ≡ demand_of self.now.terms version student.0) }
    {
        if self.answers.tasks().has_list() {
            return None;
        }
        if u32::from(student.0) >= self.students {
            return None;
        }
        let place = u32::from(version) * self.students + u32::from(student.0);
        self.answers.answer(place)
    }

    /// What the student of the task with this number takes at the prices of the task, where it was
    /// posted: for every task of a list.
    pub fn answer(&self, number: u32) -> Option<Bundle>
        ensures posted { result ≡ answer_in (mark_at self.now.marks number) }
        ensures some { IsSome self.now.terms.list → number < task_count self.now.terms
            → IsSome result }
        ensures right { IfSome result
            (λ bundle. sections_of bundle
            ≡ demand_at self.now.terms (task_at self.now.terms number)) }
    {
        self.answers.answer(number)
    }

    /// Of an `Exceeds` version, and of no other, whether more students than the limit take the
    /// section at its prices. `None` of a round with a list.
    pub fn exceeds(&self, version: u8) -> Option<bool>
        ensures { result ≡ exceeds_in self.now.terms.list self.now.terms version }
    {
        let tasks = self.answers.tasks();
        if tasks.has_list() {
            return None;
        }
        tasks.exceeds(usize::from(version))
    }

    /// How many tasks the round had.
    pub fn count(&self) -> u32
        ensures { result ≡ task_count self.now.terms }
    {
        self.answers.tasks().count()
    }

    /// The history of all calls on the board.
    pub fn journal(&self) -> &Journal<BoardState<RoundTasks>>
        ensures { result.now ≡ self.now.history }
    {
        self.answers.journal()
    }
}
