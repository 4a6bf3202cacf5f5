//! One legal history of the calls of many threads on one object.
// Neither: progress, fairness, freedom from deadlock and waiting times; that a thread which sleeps
// until its turn is woken, beyond the tests; any order in time between seats that never told each
// other anything; that nothing is lost where a seat or a chronicle is dropped without `close`.
#![tactic(auto)]

mod bells;
mod chronicle;
mod journal;
mod kept;
mod object;
mod origin;
mod rule;
mod seat;
mod standing;
mod sums;
mod view;

pub use chronicle::Chronicle;
pub use journal::{Journal, Step, StepOf};
pub use object::Object;
pub use origin::Origin;
pub use seat::Seat;
pub use standing::Standing;
