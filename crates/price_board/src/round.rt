// What is asked of a crowd in one round.
use market_units::{SectionNo, StudentNo, Tokens};

/// What is asked of a version.
#[derive(Clone, Copy, Debug, PartialEq, Eq)]
pub enum Ask {
    /// What each student takes.
    Counts,
    /// Whether more students than the limit take the section.
    Exceeds {
        /// A section of the crowd's market.
        section: SectionNo,
        /// The answer is yes where more students than this take it.
        limit: u32,
    },
}

/// The work of finding what one student takes at the prices of a version, or at these but for one
/// section that has another price.
#[derive(Clone, Copy, Debug, PartialEq, Eq)]
pub struct Task {
    /// The number of the version in its round, from 0.
    pub version: usize,
    /// The student of the crowd.
    pub student: StudentNo,
    /// A section of the crowd's market and the price that it has in place of the version's, at most
    /// one token above the highest budget; `None` where all prices are the version's.
    pub raised: Option<(SectionNo, Tokens)>,
}

/// Price vectors, the versions, and what is asked of each.
#[derive(Drop)]
pub struct Round {
    /// Vectors with one price for each section, each at most 1,000,001 tokens: 1 to 16 where there
    /// is no list.
    pub versions: Vec<Vec<Tokens>>,
    /// What is asked of each version, in the same order; nothing more than `Counts` where there is a
    /// list, and then none stands here.
    pub asks: Vec<Ask>,
    /// The tasks, in the order in which they are drawn. `None`: each student at each version.
    pub list: Option<Vec<Task>>,
}
