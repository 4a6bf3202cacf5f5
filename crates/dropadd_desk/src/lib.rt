//! The drop-add desk: what students' requests make of the seats that they hold after publication,
//! and of the waiting lists.
#![tactic(auto)]

mod bundles;
mod command;
mod desk;
pub mod laws;
mod lists;
mod reply;
mod rules;
mod shared;

pub use command::HallCommand;
pub use desk::HallDesk;
pub use reply::HallReply;
pub use rules::MarketRules;
pub use shared::HallState;
