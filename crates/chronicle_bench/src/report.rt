// What is timed, and how it is told.
ghost use Rattle.std.specs.Prelude.{◌≤◌};

use crate::calls::{Task, time_calls, time_work};
use crate::work::{nanoseconds, rounds_in};
use std::alloc::Global;
use std::io;
use std::sync::Wait;
use std::thread::Threads;
use std::time::{Clock, Duration};

/// The calls of all threads together.
const CALLS: u64 = 200_000;

/// The work between two calls, in nanoseconds.
const WORK: u64 = 5_000;

/// How often each time is taken. The least counts.
const RUNS: u32 = 5;

/// Times each number of threads, and prints a line for it.
pub fn print_all<R: Threads + Wait + Sync + Clock + Print>(
    rt: &R,
    alloc: Global,
) -> io::Result<()> {
    let rounds = rounds_in(rt, WORK)?;
    print!(rt;
        "{CALLS} calls in all, {rounds} rounds of work before each; the least of {RUNS} runs\n"
    )?;
    for threads in [1u16, 2, 4, 16, 64] {
        print_line(rt, alloc, threads, rounds)?;
    }
    Ok(())
}

fn print_line<R: Threads + Wait + Sync + Clock + Print>(
    rt: &R,
    alloc: Global,
    threads: u16,
    rounds: u64,
) -> io::Result<()>
    requires { 1 ≤ threads }
{
    let calls = CALLS / u64::from(threads);
    let mut busy = Duration::MAX;
    let mut alone = Duration::MAX;
    let mut idle = Duration::MAX;
    for _ in 0..RUNS {
        busy = busy.min(time_calls(rt, alloc, threads, Task { calls, rounds })?);
        alone = alone.min(time_work(rt, alloc, threads, Task { calls, rounds })?);
        idle = idle.min(time_calls(rt, alloc, threads, Task { calls, rounds: 0 })?);
    }
    let busy = each(busy);
    let alone = each(alone);
    let idle = each(idle);
    let second = 1_000_000_000 / busy.max(1);
    print!(rt;
        "{threads} threads: {second} calls a second, {busy} ns a call with its work, {alone} ns its work; {idle} ns a call with no work\n"
    )
}

// The nanoseconds of one of all calls.
fn each(time: Duration) -> u64 {
    nanoseconds(time) / CALLS
}
