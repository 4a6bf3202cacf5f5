//! The demands of a crowd, found by workers that draw their tasks from a board, each in a thread of
//! its own.
// Neither: that workers run beside one another, which students are asked, and by which thread, all
// beyond the tests; that nobody is asked outside the rounds of `asker/round.rt`, whose one function
// works a board and counts its students; that all memory of a call is taken before its first thread
// starts (between two rounds of threads, and behind the last, memory may be wanted, when none
// runs); how long it takes.
#![tactic(auto)]

mod allowance;
mod answering;
mod asker;
mod beside;
mod cheaper;
mod foreseen;
mod found;
mod inquiry;
mod leaving;
mod memory;
mod note;
mod notes;
mod pool;
mod pooled_demands;
mod question;
mod remembered;
mod settled;
mod survey;
mod taking;
mod trial;
mod unsettled;
mod walks;
mod worker;

pub use pool::Pool;
pub use pooled_demands::PooledDemands;
