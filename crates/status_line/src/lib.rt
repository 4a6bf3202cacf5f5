//! A line of text in a fixed room: it grows at its end, and takes no memory.
#![tactic(auto)]

mod line;

pub use line::{Line, ROOM};
