//! The aftermarket: students choose again, in turn, with raised budgets, of what they hold and of
//! what is free (Course Match: Budish, Cachon, Kessler, Othman 2017).
// Neither: how many passes it makes; that no bundle is sought where nothing new may be chosen, as
// in the code; how long it takes.
#![tactic(auto)]

mod choosing;
pub mod laws;
mod passes;
mod terms;
mod turns;

pub use passes::aftermarket;
pub use turns::{After, Turn};
