//! The price board: the students of a round of price vectors, each at one of them, which workers
//! draw and whose demands they post.
// Neither: that threads run beside each other on it, beyond the tests; that a post takes constant
// time, and all draws together look at each task once, as in the code; progress and waiting times
// of the threads.
#![tactic(auto)]

mod answers;
mod board;
mod drawn;
mod round;
mod tally;
mod tasks;
mod terms;

pub use answers::Answers;
pub use board::{Board, BoardSeat};
pub use drawn::{Draw, Drawn};
pub use round::{Ask, Round, Task};
pub use task_board::Posted;
pub use tasks::RoundTasks;
pub use terms::Terms;
