//! Facts about numbers, lists and outcomes that the proofs of several crates use and the standard
//! library has not. A fact of what the market speaks of stands beside its definition instead.
#![tactic(auto)]
