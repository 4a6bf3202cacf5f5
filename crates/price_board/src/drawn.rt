// What a draw gives.
use crate::round::Task;

/// A task of a board.
#[derive(Clone, Copy, Debug, PartialEq, Eq)]
pub struct Drawn {
    /// The place of the task in the order in which tasks are drawn, from 0.
    pub number: u32,
    /// The student, and the prices at which it is asked.
    pub task: Task,
}

/// What a draw gives.
#[derive(Clone, Copy, Debug, PartialEq, Eq)]
pub enum Draw {
    /// The seat holds the task from now on.
    Task(Drawn),
    /// Each task is drawn, or of a settled version.
    Done,
}
