//! What the tables share: the records of a text, their columns, and the walk that reads rows from
//! them.
// Neither: that want of memory is answered only where memory was wanted.
#![tactic(auto)]

mod columns;
mod fault;
pub mod laws;
mod rows;
mod table;
mod walk;

pub use columns::{field_in, name_in, number_in};
pub use fault::{End, Fault};
pub use rows::{Rows, place_of};
pub use table::Table;
pub use walk::read_rows;
