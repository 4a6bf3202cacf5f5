// What a closed board answers.
ghost use Rattle.std.specs.Prelude.{◌≡◌, true, IfSome, length};
ghost use Rattle.task_board.specs.{Kept.AreRight, Marks.answer_in, Marks.answers_in, Marks.mark_at};

use crate::mark::Mark;
use crate::state::BoardState;
use crate::tasks::Tasks;
use chronicle::Journal;
use std::marker::Model;

/// The answers to the tasks of a closed board, with the history that they are read from.
#[derive(Drop)]
pub struct Answers<T: Tasks> {
    pub(crate) state: BoardState<T>,
    pub(crate) journal: Journal<BoardState<T>>,
}

impl<T: Tasks> Model for Answers<T> {
    ghost use Rattle.task_board.specs.declared.data.AnswersData.{AnswersData};

    ghost Value = { AnswersData T.Terms T.Answer };

    ghost view = { λ a. record { marker = record {}; terms = a.state.terms; marks = a.state.marks; history = a.journal } };
}

impl<T: Tasks> Answers<T> {
    /// The answer to the task, where one was posted.
    pub fn answer(&self, task: u32) -> Option<T::Answer>
        ensures posted { result ≡ answer_in (mark_at self.now.marks task) }
        ensures right { IfSome result
            (λ answer. T.rules.is_right self.now.terms task answer ≡ true) }
    {
        match self.state.marks.get(task as usize) {
            Some(Mark::Filled(_, answer)) => Some(*answer),
            _ => None,
        }
    }

    /// The tasks, which noted all answers that were posted.
    pub fn tasks(&self) -> &T
        ensures terms { T.terms result.now ≡ self.now.terms }
        ensures noted { T.noted result.now (answers_in self.now.marks) }
        ensures right { AreRight T.rules self.now.terms self.now.marks }
        ensures each { length self.now.marks ≡ T.rules.count self.now.terms }
    {
        &self.state.tasks
    }

    /// The history of all calls on the board.
    pub fn journal(&self) -> &Journal<BoardState<T>>
        ensures { result.now ≡ self.now.history }
    {
        &self.journal
    }
}
