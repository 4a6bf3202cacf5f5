//! Menus: what each student may choose from, by the closed preferences, the catalogue and the roll.
// Neither: how long it takes.
#![tactic(auto)]

mod clashes;
pub mod laws;
mod menu;
mod pairs;
mod places;

pub use menu::menus;
