//! Threads of workers, which the caller starts one after another, so that the system can find each
//! a processor of its own.
// Neither: that threads run beside one another, beyond tests in which two workers meet; on which
// processor each runs; how long a call takes.
#![tactic(auto)]

mod parts;

pub use parts::for_each_mut;
