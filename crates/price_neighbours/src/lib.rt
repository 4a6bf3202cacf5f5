//! The neighbours of a vector of prices: what a search for prices may move to (Course Match:
//! Budish, Cachon, Kessler, Othman 2017).
// Neither: that all least prices are asked for at once, and that equal vectors are found by a
// table, as they are in the code; how long it takes.
#![tactic(auto)]

mod alone;
mod distinct;
pub mod laws;
mod neighbourhood;
mod steps;
mod taken;

pub use neighbourhood::neighbours;
