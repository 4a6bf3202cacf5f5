//! Budgets: drawn by rank, raised, and put into the order of the aftermarket.
// Neither: how long it takes.
#![tactic(auto)]

mod after;
mod budgets;
pub mod laws;
mod ranks;

pub use after::after_order;
pub use budgets::{draw, raised};
