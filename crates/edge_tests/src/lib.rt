//! Tests of the outside of the market: what no clause says of it. There is nothing else here, so
//! that what they stand on is proved once.
#![tactic(auto)]

#[cfg(test)]
mod tests;
