//! The language of preferences: session lines, the commands that they are, and how these are
//! written.
//!
//! A text is cut into lines at its line feeds, and a line into words at its spaces and tabs. A line
//! without words, or whose first word begins with `#`, is no command. Every other line is one:
//! `rate NAME NAME N`, `pair NAME NAME NAME N`, `clear NAME`, `close`, and else the command
//! `Unreadable`.
// Neither: that a text is read in one pass and no line is copied. In the code each line is a part
// of the text.
#![tactic(auto)]

mod commands;
pub mod laws;
mod lines;
mod numbers;
mod printing;
mod reading;
mod streams;

pub use commands::Command;
pub use lines::{first_line, first_word};
pub use printing::print_command;
pub use reading::{read_line, read_name_word};
pub use streams::{StreamEnd, read_stream};
