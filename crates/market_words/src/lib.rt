//! The words of the command line, and what they ask for.
#![tactic(auto)]

mod call;
pub mod laws;
mod words;

pub use call::Call;
pub use words::{Form, read_words};
