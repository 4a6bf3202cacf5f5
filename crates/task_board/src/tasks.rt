// What tasks are.
ghost use Rattle.std.specs.Prelude.{◌≡◌, ◌<◌, ℕ, Option, Some, None, List, length, slice_set};
ghost use Rattle.task_board.specs.Marks.{answer_in, answers_in, mark_at};
ghost use Rattle.task_board.specs.Rules.{IsLasting, Rules};

use crate::mark::Mark;

/// Tasks, numbered from 0 in the order in which they are drawn, each with its right answers. They
/// note what is posted: where that decides a task, it is over. Each call is lent the marks of all
/// tasks; what was noted are the answers in these.
pub trait Tasks: Drop {
    /// What no posted answer changes.
    type Terms;

    /// An answer to a task.
    type Answer: Copy + Drop;

    /// How many tasks there are, what answers them, and when a task is over.
    ghost rules: { Rules Self.Terms Self.Answer };

    /// Their terms.
    ghost terms: { Self → Self.Terms };

    /// These are the answers that were noted, in the order of the tasks.
    ghost noted: { Self → List (Option Self.Answer) → Type 0 };

    /// How many tasks there are.
    fn count(&self) -> u32
        ensures { result ≡ rules.count (terms self.now) };

    /// Whether the task is over: it is then drawn no more, and posted in vain.
    fn is_over(&self, marks: &[Mark<Self::Answer>], task: u32) -> bool
        requires noted { noted self.now (answers_in marks.now) }
        requires each { length marks.now ≡ rules.count (terms self.now) }
        requires task { task < rules.count (terms self.now) }
        ensures { result ≡ rules.is_over (terms self.now) (answers_in marks.now) task };

    /// What is told to who posts the task when it is over.
    fn tally(&self, marks: &[Mark<Self::Answer>], task: u32) -> u32
        requires noted { noted self.now (answers_in marks.now) }
        requires each { length marks.now ≡ rules.count (terms self.now) }
        requires task { task < rules.count (terms self.now) }
        ensures { result ≡ rules.tally (terms self.now) (answers_in marks.now) task };

    /// Notes the answer to a task that has none yet.
    fn note(&mut self, marks: &[Mark<Self::Answer>], task: u32, answer: Self::Answer)
        requires noted { noted self.old (answers_in marks.now) }
        requires each { length marks.now ≡ rules.count (terms self.old) }
        requires task { task < rules.count (terms self.old) }
        requires unanswered { answer_in (mark_at marks.now task) ≡ None }
        ensures terms { terms self.new ≡ terms self.old }
        ensures noted { noted self.new (slice_set (answers_in marks.now) task (Some answer)) };

    /// A task that is over stays over.
    ghost lasting: { IsLasting rules };
}
