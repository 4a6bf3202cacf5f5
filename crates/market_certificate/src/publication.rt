// What a market publishes.
use bundle_rules::Bundle;
use market_units::{StudentNo, Tokens};

/// A bundle with the tree that proves it the best.
#[derive(Drop)]
pub struct Proved {
    /// The bundle.
    pub bundle: Bundle,
    /// Its tree, as bytes.
    pub tree: Vec<u8>,
}

/// A turn of the aftermarket.
#[derive(Drop)]
pub struct ProvedTurn {
    /// The pass that the turn belongs to, from 1.
    pub pass: u64,
    /// The student whose turn it is.
    pub student: StudentNo,
    /// The bundle that the student has after the turn.
    pub bundle: Bundle,
    /// The tree that proves it the best of what the student may take.
    pub tree: Vec<u8>,
}

/// All that a market publishes, students and sections in file order.
#[derive(Drop)]
pub struct Publication {
    /// The session of each journal entry, from 1.
    pub order: Vec<u8>,
    /// Each student's budget, at most 1,000,000.
    pub budgets: Vec<Tokens>,
    /// Each section's price that the search found, at most 1,000,001.
    pub start: Vec<Tokens>,
    /// The clearing error at these prices.
    pub error: u64,
    /// Each section's price of the second stage, at most 1,000,001.
    pub prices: Vec<Tokens>,
    /// Each student's best bundle at the prices of the second stage.
    pub bundles: Vec<Proved>,
    /// The turns of the aftermarket, in the order in which they were made.
    pub turns: Vec<ProvedTurn>,
    /// Each student's bundle after all turns.
    pub allocation: Vec<Bundle>,
    /// Of each section how many seats are used and how many there are, at most 9,999.
    pub used: Vec<(u16, u16)>,
}
