//! Tests of the published text: how it is read and written, what is found in forged ones, and what
//! is published of a market and told of it. There is nothing else here, so that what they stand on
//! is proved once.
#![tactic(auto)]

#[cfg(test)]
mod tests;
