//! The catalogue: its sections, read from a table with each refusal at its exact place.
// Neither: how much time and memory reading takes; the texts that `thiserror` makes of refusals.
#![tactic(auto)]

mod catalog;
mod courses;
pub mod laws;
mod reading;
mod refusal;
mod rows;
mod rules;

pub use catalog::Catalog;
pub use reading::read_catalog;
pub use refusal::CatalogRefusal;
