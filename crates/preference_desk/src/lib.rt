//! The desk: what the sessions' commands make of the students' preferences, and the journal of what
//! was said and replied.
// Neither: how long a post takes. In the code it looks names up in hash tables and searches one
// student's row.
#![tactic(auto)]

mod desk;
mod entry;
pub mod laws;
mod names;
mod pairs;
mod preferences;
mod rating;
mod ratings;
mod reply;
mod rows;
mod shared;
mod steps;
mod two_sections;

pub use desk::Desk;
pub use entry::Entry;
pub use preferences::Preferences;
pub use reply::Reply;
pub use shared::{Known, Told};
