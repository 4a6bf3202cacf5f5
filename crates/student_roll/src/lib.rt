//! The roll: the students of the market, read from a table.
// Neither: how much time and memory reading takes; the texts that `thiserror` makes of refusals.
#![tactic(auto)]

mod entry;
mod reading;
mod refusal;
mod roll;
mod rules;

pub use reading::read_roll;
pub use refusal::RollRefusal;
pub use roll::Roll;
