//! Rows of one width, reserved once and handed out again and again without memory.
#![tactic(auto)]

mod region;

pub use region::{Region, RowId};
