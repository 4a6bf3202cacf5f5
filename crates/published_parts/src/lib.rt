//! The parts of a publication: what a market's journal, crowd, bundles, turns and seats have to be,
//! whoever publishes them and whoever checks them; and the market itself, as it is passed to both.
//! Definitions, their laws and one type, and no function that does anything.
#![tactic(auto)]

pub mod laws;
mod market;

pub use market::Market;
