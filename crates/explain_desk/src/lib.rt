//! Why a student has no seat in a section: the first reason that applies, and the best bundle with
//! the section, with the tree that proves it; for one bundle, and for a student of an accepted
//! text.
//!
//! The text of an explanation is `STUDENT SECTION REASON`, the reason being `held`, `unrated`,
//! `alone LIMIT`, `clash SECTION`, `beside LIMIT` or `less`, and a limit `price`, `credits` or
//! `courses`. Where a bundle with the section can be had and the student does not hold the section,
//! these lines follow: `best [SECTION,SECTION] UTILITY`, `lost N` with the utility that the student
//! would lose by it, and `tree TREE`.
// Neither: how long an explanation takes.
#![tactic(auto)]

mod checking;
mod explaining;
mod explanation;
pub mod laws;
mod limits;
mod lines;
mod offered;
mod published;
mod reasons;
mod text;

pub use checking::check_forced;
pub use explaining::explain;
pub use explanation::{Explained, Proved};
pub use limits::Limit;
pub use published::published_reason;
pub use reasons::Reason;
pub use text::put_explained;
