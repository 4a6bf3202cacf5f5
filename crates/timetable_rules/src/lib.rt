//! When sections meet and in which parts of the term, how both are written, and which sections
//! clash.
// Neither: how long the table of clashes takes.
#![tactic(auto)]

mod clashes;
pub mod laws;
mod meeting;
mod meetings;
mod overlaps;
mod pairs;
mod parts;
mod parts_text;
mod reading;

pub use clashes::ClashTable;
pub use meeting::Meeting;
pub use meetings::Meetings;
pub use overlaps::overlap;
pub use parts::Parts;
pub use parts_text::read_parts;
pub use reading::read_meetings;
