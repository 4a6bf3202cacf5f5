//! The whole market between the closed desk and the text: what is published, and how it is made.
// Neither: that trees are written by as many workers as are named, each to a room whose memory was
// taken before, as they are in the code; that prices of small error exist; how long it takes.
#![tactic(auto)]

mod best;
mod bundles;
mod chosen;
mod crowd;
pub mod laws;
mod order;
mod publishing;
mod rooms;
mod seats;
mod sessions;
mod taken;
mod trees;
mod turns;
mod writers;

pub use crowd::crowd_after;
pub use publishing::{PublishEnd, Published, publish};
pub use sessions::are_sessions;
pub use writers::Writers;

#[cfg(test)]
mod tests;
