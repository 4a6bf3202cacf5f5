//! The text of a journal and of the preferences after it.
//!
//! First come the entries in their order, a line each: `entry SESSION REPLY COMMAND`. Then come the
//! students in file order: the student's ratings, `rate STUDENT SECTION N`, by ascending section,
//! and then the student's adjustments, `pair STUDENT FIRST SECOND N`, by ascending pair, each with
//! its lower section first. All adjustments are written, also those of sections that are not rated.
// Neither: how long it takes.
#![tactic(auto)]

mod journal;
mod lines;
mod preferences;
mod text;

pub use text::preferences_text;
