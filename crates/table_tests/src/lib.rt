//! Tests of words, rules and tables: of numbers, names and sets, of bundles, meetings and commands,
//! of drawn words, and of what tables and settings are read as. There is nothing else here, so that
//! what they stand on is proved once.
#![tactic(auto)]

#[cfg(test)]
mod tests;
