// The turns that are made, and the whole of an aftermarket.
use bundle_rules::Bundle;
use market_units::{SectionSet, StudentNo};

/// One turn of the aftermarket.
#[derive(Clone, Copy, Debug)]
pub struct Turn {
    /// The number of its pass, from 1.
    pub pass: u64,
    /// The student whose turn it is.
    pub student: StudentNo,
    /// The sections that the student could choose: those that it held, and those that were free.
    pub allowed: SectionSet,
    /// What the student holds from this turn on: the best of these sections within its raised
    /// budget.
    pub bundle: Bundle,
}

/// What an aftermarket comes to.
#[derive(Drop)]
pub struct After {
    /// Every turn, also those that changed nothing, in the order in which they were made.
    pub turns: Vec<Turn>,
    /// The number of passes, of which the last changed nothing; 0 without students.
    pub passes: u64,
    /// What each student holds after the last turn, in file order.
    pub bundles: Vec<Bundle>,
    /// How many students hold each section after the last turn, by ordinal: at most 2,000.
    pub used: Vec<u16>,
}
