// What a worker asks of a board, and what the board replies.

/// A call on a board.
#[derive(Clone, Copy, Debug, Drop, PartialEq, Eq)]
pub enum Call<A> {
    /// Asks for a task.
    Draw,
    /// Hands in the answer to a task.
    Post {
        /// The number of the task, from 0.
        task: u32,
        /// A right answer to it.
        answer: A,
    },
}

/// What comes of a post.
#[derive(Clone, Copy, Debug, PartialEq, Eq)]
pub enum Posted {
    /// The seat does not hold the task. Nothing changes.
    NotYours,
    /// The task was over.
    Late {
        /// What the tasks then tally of the answers that were posted.
        count: u32,
    },
    /// The answer stands at its task.
    Taken,
}

/// The reply to a call.
#[derive(Clone, Copy, Debug, PartialEq, Eq)]
pub enum Reply {
    /// To a draw: the number of the task that the seat holds from now on, and `None` where each
    /// task is drawn or over.
    Draw(Option<u32>),
    /// To a post.
    Post(Posted),
}
