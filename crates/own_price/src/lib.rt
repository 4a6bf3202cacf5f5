//! What a section's own price does: the least price at which few enough take it, and what is taken
//! while it rises.
// Neither: that `raise` asks only those who hold the section, as it does in the code, beyond the
// test; how long it takes.
#![tactic(auto)]

mod exchange;
mod held;
pub mod laws;
mod least;
mod students;

pub use held::Held;
pub use least::least_price;
