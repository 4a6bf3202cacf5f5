//! Terms worked by hand, for the tests of several crates: the inputs of small markets, what is
//! published of them, and what is told of them at a desk, in an audit and in a hall of drop and
//! add. These texts were computed apart from this program. A constant is named for its term, and
//! then for the part of it that it is.
// Neither: that these texts were computed apart from this program. No clause cites them.
#![tactic(auto)]

mod envy;
mod halls;
mod one_seat;
mod ordinary;
mod rivals;
mod sections;
mod sessions;
mod settings;
mod term;

pub use envy::{
    BEYOND_ONE_ENVY, EQUAL_ENVY, FOUR_ENVY, LOWER_BASE_ENVY, ORDINARY_ENVY, USEFUL_ENVY,
};
pub use halls::{
    DROPPED_SEAT_HALL, EACH_REPLY_HALL, FIVE_SECTIONS_FIRST, FIVE_SECTIONS_HELD,
    FIVE_SECTIONS_SECOND, FIVE_SECTIONS_TERM, FIVE_STUDENTS_TERM, WAITING_HALL,
};
pub use one_seat::{
    CARRIED_ROLL, CARRIED_TERM, CARRIED_TEXT, EQUAL_MARKET, EQUAL_ROLL, EQUAL_SESSION, EQUAL_TERM,
    FOUR_FIRST_TWO, FOUR_LAST_TWO, FOUR_MARKET, FOUR_ROLL, FOUR_SESSION, LOWER_BASE_MARKET,
    LOWER_BASE_ROLL, ONE_SEAT_CATALOGUE,
};
pub use ordinary::{
    NO_SECTIONS_CATALOGUE, NO_SECTIONS_TERM, NO_SECTIONS_TEXT, ORDINARY_CATALOGUE, ORDINARY_MARKET,
    ORDINARY_ROLL, ORDINARY_SESSION, ORDINARY_SETTINGS, ORDINARY_TERM, ORDINARY_TEXT,
};
pub use rivals::{SWAPS_MARKET, TIES_MARKET};
pub use sections::{
    BEYOND_ONE_MARKET, NOBODY_CATALOGUE, NOBODY_MARKET, NOBODY_ROLL, NOBODY_TERM,
    THREE_SECTIONS_CATALOGUE, TIGHT_MARKET, TWO_SECTIONS_CATALOGUE, USEFUL_MARKET,
};
pub use sessions::{STAYING_SESSION, TWO_STUDENTS_SESSION, WorkedSession};
pub use settings::{ACCEPT_0, ACCEPT_1, ACCEPT_8, ACCEPT_9, ACCEPT_99};
pub use term::{WorkedHall, WorkedMarket, WorkedTerm};
