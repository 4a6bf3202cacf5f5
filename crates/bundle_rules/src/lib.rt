//! Menus, bundles, and which bundle a student wants: utility, what is feasible, what is preferred,
//! what is best.
// Neither: how long `best_plain` takes; it tries every choice. That the order of a search is the one
// that `Ranked` tells: any order finds the same bundle, and a test shows this one.
#![tactic(auto)]

mod ahead;
mod bundle;
mod conditions;
mod demand;
pub mod laws;
mod menu;
mod picks;
mod place_list;
mod preferences;
mod putting;
mod ranked;
mod ranking;
mod rows;

pub use ahead::is_ahead;
pub use bundle::Bundle;
pub use demand::{all_allowed, best_plain, has_prices, price_of};
pub use menu::{Menu, Rated};
pub use place_list::Places;
pub use preferences::{feasible, prefers, utility};
pub use ranked::Ranked;
pub use rows::{Rows, place_among};
