//! The whole program, over whatever shelf, sink and gate it is given: from the words of the command
//! line to the status, and from the bytes of the inputs to the bytes of the output.
// Neither: that the whole text is made before its first byte is written. In the code no form is
// given the sink.
#![tactic(auto)]

mod audit;
mod catalog;
mod cause;
mod check;
mod demand;
mod ended;
mod explain;
mod hall;
mod host;
mod input;
mod inputs;
pub mod laws;
mod line;
mod make;
mod prefer;
mod prices;
mod program;
mod quote;
mod roll;
mod run;
mod said;
mod settings;
mod status;
mod stream_item;
mod sure;
mod text;
mod trouble;
mod workers;

pub use cause::Cause;
pub use certificate_checker::Finding;
pub use host::{course_match, no_memory_for_words};
pub use market_settings::Key;
pub use program::{answered, exit_code};
pub use status::Status;
pub use sure::sure_match;
