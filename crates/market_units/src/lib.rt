//! The numbers, names, sets and lists that every part of the market speaks of, and the market's
//! limits.
// Neither: the texts that `Debug` prints.
#![tactic(auto)]

pub mod laws;
mod limits;
mod names;
mod numbers;
mod reading;
mod sections;
mod units;

pub use limits::{
    MAX_ACCEPT, MAX_ADJUSTMENT, MAX_BASE, MAX_BUDGET, MAX_COMMANDS, MAX_COURSES, MAX_CREDITS,
    MAX_INPUT_BYTES, MAX_MEETINGS, MAX_NAME, MAX_PAIRS, MAX_PATIENCE, MAX_PRICE, MAX_RAISE,
    MAX_RATING, MAX_RATINGS, MAX_SEATS, MAX_SECTION_CREDITS, MAX_SECTIONS, MAX_SESSIONS,
    MAX_SPREAD, MAX_STEP, MAX_STEPS, MAX_STUDENTS, MAX_TABU, MAX_TEXT_BYTES, MAX_TURNS,
    MAX_VERSIONS, MAX_WORKERS,
};
pub use names::Name;
pub use numbers::{put_number, read_number};
pub use reading::read_name;
pub use sections::SectionSet;
pub use units::{NoMemory, SectionNo, StudentNo, Tokens};
