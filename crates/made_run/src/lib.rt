//! The made market: its texts, read; and its summary, which its four numbers alone determine.
//!
//! The texts are of their grammars and within the limits of their readers, for all numbers: so only
//! memory can be wanted. Its two sessions speak for different students: in whatever order their
//! commands are taken, the students want the same in the end.
#![tactic(auto)]

pub mod laws;
mod market;
mod numbers;
mod reading;
mod summary;

pub use market::{MadeMarket, make_market};
pub use numbers::Numbers;
pub use summary::made_summary;
