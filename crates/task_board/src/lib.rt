//! The task board: tasks in a fixed order, which workers draw and answer, each from its seat, with
//! the one legal history of their calls.
// Neither: that threads run beside each other on it, beyond the tests; that a post takes constant
// time, and all draws together look at each task once, as in the code; progress and waiting times.
#![tactic(auto)]

mod answers;
mod board;
mod calls;
mod data;
mod mark;
mod shared;
mod state;
mod tasks;
mod worker;

pub use answers::Answers;
pub use board::{Board, BoardSeat};
pub use calls::{Call, Posted, Reply};
pub use data::{AnswersData, Progress, StateData};
pub use mark::Mark;
pub use state::BoardState;
pub use tasks::Tasks;
pub use worker::{Worker, work_all};
