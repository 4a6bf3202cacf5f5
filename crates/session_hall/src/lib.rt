//! The hall: sessions post their commands to one desk, each from a thread of its own.
// Neither: where the gate is passed, beyond the stops that tests count; progress, waiting times and
// fairness; how long it takes.
#![tactic(auto)]

mod hall;
mod streams;

pub use hall::{ClosedDesk, hold};
