//! A market made from four numbers: a catalogue, a roll, settings and two sessions, as texts.
//!
//! Sections are `C1`, `C2` .. and students `S1`, `S2` .., each with a number from 1. Each student
//! rates up to 20 sections, which follow one another round the catalogue, and has one adjustment of
//! the first two of them. The students of odd number speak in the first session and the others in
//! the second, so that both sessions together mean the same in every order in which they may be
//! merged. Each line ends with a line feed.
#![tactic(auto)]

mod catalog;
pub mod laws;
mod lines;
mod market;
mod roll;
mod sessions;
mod settings;
mod wishes;

pub use market::{Made, make};
