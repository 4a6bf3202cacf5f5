//! The price sheet: a price for each section of a catalogue, read from a table.
// Neither: how much time and memory reading takes; the texts that `thiserror` makes of refusals.
#![tactic(auto)]

mod entry;
mod reading;
mod refusal;
mod rules;

pub use reading::read_prices;
pub use refusal::PriceRefusal;
