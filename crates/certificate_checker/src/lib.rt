//! Whether a published text is accepted: a check that trusts nothing of who published it, and does
//! not judge its prices.
// Neither: that the prices came from a search or an elimination, and that the order is the one in
// which sessions came, since the check does not ask for either; how long it takes.
#![tactic(auto)]

mod accepted;
mod allocation;
mod budgets;
mod bundles;
mod checking;
mod findings;
pub mod laws;
mod orders;
mod printed;
mod progress;
mod seats;
mod terms;
mod turns;
mod words;

pub use accepted::Accepted;
pub use checking::{accept, check, check_owned};
pub use findings::{CheckEnd, Finding, TurnFault};
pub use words::finding_line;
