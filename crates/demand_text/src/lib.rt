//! What a crowd takes at given prices, and the text that tells it.
//!
//! First comes the order of the journal on which the preferences rest, `order SESSION SESSION ..`,
//! a session for each entry. Then come the students in file order, `bundle STUDENT
//! [SECTION,SECTION]`, the sections in file order, `count SECTION COUNT`, and the clearing error,
//! `error E`.
// Neither: how long it takes.
#![tactic(auto)]

mod lines;
mod taking;
mod text;

pub use lines::put_order;
pub use taking::Taken;
pub use text::demand_text;
