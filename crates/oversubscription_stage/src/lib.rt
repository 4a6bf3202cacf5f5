//! The elimination of oversubscription: prices are raised, one after another, until no section has
//! more students than seats (Course Match: Budish, Cachon, Kessler, Othman 2017).
// Neither: how many rounds it makes, and how long it takes.
#![tactic(auto)]

mod excess;
pub mod laws;
mod settling;

pub use settling::{Settled, settle};
