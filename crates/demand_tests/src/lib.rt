//! Tests of what students take: of crowds, of the crates in which their bundles are sought, by one
//! search and by workers, and of the clearing error. There is nothing else here, so that what they
//! stand on is proved once.
#![tactic(auto)]

#[cfg(test)]
mod tests;
