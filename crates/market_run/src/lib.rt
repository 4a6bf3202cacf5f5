//! A market that workers run, from what its sessions say or from a closed desk: the text that it
//! publishes, or its summary of ten lines.
// Neither: how long it takes.
#![tactic(auto)]

mod held;
mod lines;
mod market_desk;
mod running;
mod summary;
mod sums;
mod texts;

pub use held::{HeldEnd, held_summary, held_text};
pub use market_desk::MarketDesk;
pub use summary::summary_text;
pub use texts::{made_summary, published_text};
