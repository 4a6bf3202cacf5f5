//! The outside of the market: shelves that texts are read from, sinks that texts are written to,
//! and gates that sessions and workers pass. Whatever the outside does, a text is had whole or a
//! counted fault says why not.
// Neither: what a real file or pipe holds, what `MeetingGate` counts, and for whom it waits, beyond
// the tests. A `Gate` promises nothing of a pass.
#![tactic(auto)]

mod begun_list;
mod env_words;
mod file_shelf;
mod gate;
mod given_words;
mod meeting_gate;
mod memory_files;
mod memory_shelf;
mod memory_sink;
mod memory_words;
mod shelf;
mod sink;
mod stdout_sink;
mod sure_shelf;
mod sure_sink;
mod whole_text;
mod words;

pub use env_words::EnvWords;
pub use file_shelf::FileShelf;
pub use gate::{AnyGate, Gate, OpenGate, Passed, Stop};
pub use given_words::{NoWords, words_of};
pub use meeting_gate::{MeetingGate, Passes};
pub use memory_shelf::MemoryShelf;
pub use memory_sink::MemorySink;
pub use memory_words::MemoryWords;
pub use shelf::{Failed, Shelf};
pub use sink::Sink;
pub use stdout_sink::StdoutSink;
pub use sure_shelf::SureShelf;
pub use sure_sink::SureSink;
pub use whole_text::{SinkFault, Taking, read_whole, write_whole};
pub use words::{Word, Words};
