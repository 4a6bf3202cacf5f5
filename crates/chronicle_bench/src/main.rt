//! Times the calls of a chronicle by threads that work between them. Prints its figures where it is
//! given words, and else nothing.
// Neither: the figures that it prints.
#![tactic(auto)]

mod calls;
mod counter;
mod report;
mod work;

use std::{env, io};

fn main(rt: HostRuntime) -> io::Result<()> {
    if env::args(&rt).is_ok_and(|words| words.count() > 1) {
        report::print_all(&rt, rt.alloc())?;
    }
    Ok(())
}

#[cfg(test)]
mod tests;
