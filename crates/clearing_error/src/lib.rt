//! How far the counts at given prices are from the seats of the sections.
#![tactic(auto)]

pub mod laws;
mod parts;

pub use parts::{error, excess};
