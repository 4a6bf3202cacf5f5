//! The crowd of a market: who can be asked for a bundle at given prices.
// Neither: how long it takes.
#![tactic(auto)]

mod making;

pub use making::make_crowd;
