//! Dropping and adding sections after a text is published: what stands against opening a desk;
//! sessions that make their requests to one desk, each from a thread of its own; and the text that
//! tells what was replied and what is held after it.
//!
//! A line of a stream is a request: `add STUDENT SECTION`, `drop STUDENT SECTION`, `leave STUDENT
//! SECTION`; lines and words are cut as those of sessions (`utility_language`). The text has a line
//! for each request in its order, `entry SESSION REQUEST: REPLY`; then the students in file order,
//! `final STUDENT [SECTION,SECTION]`; the sections in file order for which somebody waits, `wait
//! SECTION STUDENT STUDENT ..`; and all sections, `used SECTION USED SEATS`.
// Neither: that a thread is started where one can be.
#![tactic(auto)]

mod hall;
pub mod laws;
mod lines;
mod opening;
mod published;
mod published_desk;
mod requests;
mod text;

pub use hall::{ClosedHall, open_hall};
pub use opening::{OpeningFault, opening_fault};
pub use published::published_hall;
pub use requests::{read_request, read_requests};
pub use text::put_hall;
