// A gate at which sessions and workers meet, for tests.

use crate::{Gate, Stop};
use std::sync::atomic::{AtomicU64, Ordering};

// How often a session or a worker looks for the other one before it passes on alone.
const TURNS: u32 = 1_000_000_000;

/// The stops of one session or worker: those before its first command or task, and those after an
/// answered one.
#[derive(Drop)]
pub struct Passes {
    starts: AtomicU64,
    calls: AtomicU64,
}

impl Passes {
    /// No stop yet.
    pub fn none() -> Self {
        Passes {
            starts: AtomicU64::new(0),
            calls: AtomicU64::new(0),
        }
    }

    /// Counts a stop before a first command or task.
    pub fn count_start(&self) {
        count_one(&self.starts);
    }

    /// Counts a stop after an answered command or post.
    pub fn count_call(&self) {
        count_one(&self.calls);
    }

    /// How often it stood before a first command or task, and how often after an answered one.
    pub fn counts(&self) -> (u64, u64) {
        (count_of(&self.starts), count_of(&self.calls))
    }
}

/// Counts the stops of three sessions and two workers. The calls of the first two sessions meet,
/// and those of the workers: after each reply they wait until the other has had one. It is there
/// for tests.
#[derive(Drop)]
pub struct MeetingGate {
    /// The stops of session 1.
    pub first: Passes,
    /// The stops of session 2.
    pub second: Passes,
    /// The stops of session 3, which meets nobody.
    pub third: Passes,
    /// The stops of worker 1.
    pub first_worker: Passes,
    /// The stops of worker 2.
    pub second_worker: Passes,
    others: AtomicU64,
    missed: AtomicU64,
}

impl MeetingGate {
    /// A gate that nobody has passed.
    pub fn new() -> Self {
        MeetingGate {
            first: Passes::none(),
            second: Passes::none(),
            third: Passes::none(),
            first_worker: Passes::none(),
            second_worker: Passes::none(),
            others: AtomicU64::new(0),
            missed: AtomicU64::new(0),
        }
    }

    /// The stops of all other sessions and workers.
    pub fn others(&self) -> u64 {
        count_of(&self.others)
    }

    /// How often a session or a worker passed on alone.
    pub fn missed(&self) -> u64 {
        count_of(&self.missed)
    }

    fn meet(&self, mine: &Passes, other: &Passes) {
        mine.count_call();
        for _ in 0..TURNS {
            if count_of(&other.calls) > 0 {
                return;
            }
        }
        count_one(&self.missed);
    }
}

impl Gate for MeetingGate {
    fn pass(&self, stop: Stop) {
        match stop {
            Stop::SessionStart(1) => self.first.count_start(),
            Stop::SessionStart(2) => self.second.count_start(),
            Stop::SessionStart(3) => self.third.count_start(),
            Stop::SessionCall(1) => self.meet(&self.first, &self.second),
            Stop::SessionCall(2) => self.meet(&self.second, &self.first),
            Stop::SessionCall(3) => self.third.count_call(),
            Stop::WorkerStart(1) => self.first_worker.count_start(),
            Stop::WorkerStart(2) => self.second_worker.count_start(),
            Stop::WorkerCall(1) => self.meet(&self.first_worker, &self.second_worker),
            Stop::WorkerCall(2) => self.meet(&self.second_worker, &self.first_worker),
            _ => count_one(&self.others),
        }
    }
}

fn count_of(counter: &AtomicU64) -> u64 {
    counter.load(Ordering::SeqCst)
}

fn count_one(counter: &AtomicU64) {
    counter.fetch_add(1, Ordering::SeqCst);
}
