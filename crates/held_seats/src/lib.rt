//! What students hold of the sections' seats: each bundle, the holders of each section, and the
//! free sections.
// Neither: how long it takes.
#![tactic(auto)]

mod below;
mod counts;
mod floor;

pub use below::are_below;
pub use floor::Floor;
