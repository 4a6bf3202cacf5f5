//! The published text of a market: how a publication is written, what a text is read as, and the
//! fields of printed lines.
// Neither: how much time and memory writing and reading take.
#![tactic(auto)]

mod amounts;
mod bundle_fields;
mod fields;
pub mod laws;
mod publication;
mod reading;
mod refusals;
mod tables;
mod writing;

pub use bundle_fields::put_bundle_field;
pub use fields::put_signed_field;
pub use publication::{Proved, ProvedTurn, Publication};
pub use reading::read_publication;
pub use refusals::{LineFault, TextRefusal};
pub use writing::{put_error, put_field, put_number_field, put_publication};
