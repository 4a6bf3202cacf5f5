//! Sessions at one object: each posts a stream of requests to it, from a thread of its own, and the
//! one history of their calls merges the streams.
// Neither: that a thread is started where one can be; where the gate is passed, beyond the stops
// that tests count; progress, waiting times and fairness.
#![tactic(auto)]

mod posting;
mod sessions;

pub use sessions::post_streams;
