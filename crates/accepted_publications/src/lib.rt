//! What is published is accepted, and every text is accepted or has a first finding: laws alone, on
//! how a market is held and how its text is checked.
#![tactic(auto)]

pub mod laws;
