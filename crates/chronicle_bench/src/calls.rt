// Threads that call one chronicle.
ghost use Rattle.std.specs.Prelude.{◌≡◌, ◌≤◌, ◌<◌, ◌*◌, Some, All, IfOk, length, vec_len};
ghost use Rattle.chronicle.specs.Views.{sum_of};

use crate::counter::Counter;
use crate::work::work;
use chronicle::{Chronicle, Seat};
use market_units::NoMemory;
use std::alloc::{AllocError, Global};
use std::sync::Wait;
use std::thread::Threads;
use std::time::{Clock, Duration, Instant};
use std::{io, thread};

/// What each thread does: so many calls, and so many rounds of work before each.
#[derive(Clone, Copy)]
pub struct Task {
    pub calls: u64,
    pub rounds: u64,
}

/// How long so many threads take for their calls.
pub fn time_calls<R: Threads + Wait + Sync + Clock>(
    rt: &R,
    alloc: Global,
    threads: u16,
    task: Task,
) -> io::Result<Duration>
    requires threads { 1 ≤ threads }
    requires calls { task.calls ≤ 1000000 }
{
    let (allotments, room) = share_out(alloc, threads, task.calls).map_err(as_error)?;
    let counter = Counter { steps: 0, room };
    let (chronicle, mut seats) = Chronicle::start(alloc, counter, allotments).map_err(as_error)?;
    let start = Instant::now(rt)?;
    call_all(rt, &chronicle, seats.as_mut_slice(), task);
    start.elapsed(rt)
}

fn as_error(_: NoMemory) -> io::Error {
    io::Error::from(AllocError)
}

/// How long so many threads take for their work with no call between.
pub fn time_work<R: Threads + Wait + Sync + Clock>(
    rt: &R,
    alloc: Global,
    threads: u16,
    task: Task,
) -> io::Result<Duration>
    requires threads { 1 ≤ threads }
{
    let mut values = Vec::new(alloc);
    for value in 0..u64::from(threads) {
        values.push(value)?;
    }
    let start = Instant::now(rt)?;
    thread::for_each_mut(
        rt,
        values.as_mut_slice(),
        usize::from(threads),
        &|_, value| { work_often(value, task) },
    );
    start.elapsed(rt)
}

fn work_often(value: &mut u64, task: Task) {
    for _ in 0..task.calls {
        *value = work(*value, task.rounds);
    }
}

// The allotments of so many seats, each of so many calls, and how many calls they are.
fn share_out(alloc: Global, seats: u16, calls: u64) -> Result<(Vec<u64>, u64), NoMemory>
    requires calls { calls ≤ 1000000 }
    ensures count { IfOk result (λ r. vec_len r.0 ≡ seats) }
    ensures each { IfOk result (λ r. All (λ allotment. allotment ≡ calls) r.0.items) }
    ensures sum { IfOk result (λ r. r.1 ≡ sum_of r.0.items) }
{
    let mut allotments = Vec::with_capacity(alloc, usize::from(seats))?;
    let mut all = 0u64;
    'seats: for _ in 0..seats {
        allotments.push_reserved(calls);
        all += calls;
    }
    Ok((allotments, all))
}

fn call_all<R: Threads + Wait + Sync>(
    rt: &R,
    chronicle: &Chronicle<Counter>,
    seats: &mut [Seat<Counter>],
    task: Task,
)
    requires some { 1 ≤ length seats.old }
    requires seats { All (λ s. (s.chronicle ≡ Some chronicle.now) × (s.left ≡ task.calls))
        seats.old }
{
    let threads = seats.len();
    thread::for_each_mut(
        rt,
        seats,
        threads,
        &|_, seat| { call_often(rt, chronicle, seat, task) },
    );
}

fn call_often<R: Wait>(rt: &R, chronicle: &Chronicle<Counter>, seat: &mut Seat<Counter>, task: Task)
    requires chronicle { seat.old.chronicle ≡ Some chronicle.now }
    requires left { seat.old.left ≡ task.calls }
{
    let mut value = u64::from(seat.number());
    for _ in 0..task.calls {
        value = work(value, task.rounds);
        value = value.wrapping_add(chronicle.call(rt, seat, value));
    }
}
