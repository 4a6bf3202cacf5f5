//! Trees that prove a bundle the best one, or the best one with a given section.
// Neither: how long a tree is, and how long it takes.
#![tactic(auto)]

mod building;
mod checking;
mod claim;
mod defects;
pub mod laws;
mod signs;
mod standing;
mod symbol_bytes;
mod symbols;
mod visit;
mod walk;
mod ways;

pub use building::{build, build_forced, build_into};
pub use checking::{check_forced, check_tree};
pub use defects::TreeDefect;
pub use signs::Sign;
