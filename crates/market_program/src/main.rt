//! The shipped command: real files in, standard output out, the status as the number of the
//! process. Nothing is written to standard error.
// Neither: what the system refuses before `main`.
#![tactic(auto)]

use market_edge::{EnvWords, FileShelf, OpenGate, StdoutSink};
use market_host::exit_code;
use std::process::ExitCode;

#[cfg(test)]
mod tests;

fn main(rt: HostRuntime) -> ExitCode {
    let mut shelf = FileShelf::new(&rt);
    let mut sink = StdoutSink::new(rt.stdout());
    exit_code(
        &rt,
        rt.alloc(),
        &EnvWords::new(&rt),
        &mut shelf,
        &mut sink,
        &OpenGate,
    )
}
