//! The search for prices of small clearing error: a tabu search (Course Match: Budish, Cachon,
//! Kessler, Othman 2017).
// Neither: that the neighbours of a turn are told before they are counted, and that no vector is
// counted twice in a turn, but that a restart's may be a counted neighbour, as in the code; that
// prices of small error are found, beyond the tests; how long it takes.
#![tactic(auto)]

mod counting;
mod drawing;
pub mod laws;
mod results;
mod searching;
mod visiting;
mod walking;

pub use results::{Found, SearchEnd};
pub use searching::search;
