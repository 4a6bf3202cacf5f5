//! What can at most still be reached from a node of the search for a best bundle.
// Neither: how long it takes.
#![tactic(auto)]

mod base;
mod chosen;
mod known;
pub mod laws;
mod leaving;
mod nodes;
mod offer;
mod opens;
mod places;
mod prospects;
mod pruning;
mod sifting;
mod stems;
mod tangents;
mod words;

pub use nodes::{Leaf, Node, bound, bound_closes, is_open, is_open_in};
pub use offer::Offer;
pub use places::{adjustments_with, is_apart, price_of_place};
pub use stems::Stem;
