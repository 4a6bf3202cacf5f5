// Where a worker passes its gate: before its first draw, and behind each of its posts. A gate that
// holds one of two workers shows it.
use crate::tests::rivals::rivals;
use crate::tests::workers::{all_have_prices, at, exceeds_by, only};
use demand_api::Demands;
use demand_workers::{Pool, PooledDemands};
use market_edge::{Gate, Passes, Stop};
use std::alloc::Global;
use std::process::Abort;
use std::sync::atomic::{AtomicU64, Ordering};
use std::sync::{Arc, Wait};
use std::test::Fail;
use std::thread::Threads;

// How often a worker looks for the other one before it passes on alone.
const TURNS: u32 = 1_000_000_000;

// How often the second worker looks whether the first goes on, where it should not.
const MOMENT: u32 = 1_000_000;

/// Lets the first worker begin when the second stands at its start, and the second when the first
/// has made `alone` calls. There the first waits until the second has made `then` calls.
#[derive(Drop)]
struct HoldingGate {
    alone: u64,
    then: u64,
    // It holds nobody before it is shut.
    shut: AtomicU64,
    first: Passes,
    second: Passes,
    // How often a worker passed on alone.
    missed: AtomicU64,
}

impl HoldingGate {
    fn of(alone: u64, then: u64) -> Self {
        HoldingGate {
            alone,
            then,
            shut: AtomicU64::new(0),
            first: Passes::none(),
            second: Passes::none(),
            missed: AtomicU64::new(0),
        }
    }

    fn shut(&self) {
        self.shut.store(1, Ordering::SeqCst);
    }

    // Waits until the worker has stood so often at its start, and made so many calls.
    fn hold(&self, worker: &Passes, starts: u64, calls: u64) {
        for _ in 0..TURNS {
            let (started, called) = worker.counts();
            if started >= starts && called >= calls {
                return;
            }
        }
        self.missed.fetch_add(1, Ordering::SeqCst);
    }

    // Waits for a moment, or until the first worker has made a call too many.
    fn watch(&self) {
        for _ in 0..MOMENT {
            if calls_of(&self.first) > self.alone {
                return;
            }
        }
    }

    // The calls of the first worker and of the second, and how often one passed on alone.
    fn counts(&self) -> [u64; 3] {
        let missed = self.missed.load(Ordering::SeqCst);
        [calls_of(&self.first), calls_of(&self.second), missed]
    }
}

impl Gate for HoldingGate {
    fn pass(&self, stop: Stop) {
        if self.shut.load(Ordering::SeqCst) == 0 {
            return;
        }
        match stop {
            Stop::WorkerStart(1) => self.hold(&self.second, 1, 0),
            Stop::WorkerStart(2) => {
                self.second.count_start();
                self.hold(&self.first, 0, self.alone);
            }
            Stop::WorkerCall(1) => {
                self.first.count_call();
                if calls_of(&self.first) == self.alone {
                    self.hold(&self.second, 0, self.then);
                }
            }
            Stop::WorkerCall(2) => {
                self.second.count_call();
                if calls_of(&self.second) == self.then {
                    self.watch();
                }
            }
            _ => {}
        }
    }
}

fn calls_of(worker: &Passes) -> u64 {
    let (_, calls) = worker.counts();
    calls
}

// A limit of a comparison, how many calls the first worker makes before the second begins, and how
// many the second makes then. More than three take the section when all four are posted, and more
// than two when the first task is posted and two others.
const HELD: [(u32, u64, u64); 2] = [(3, 4, 0), (2, 1, 2)];

// Who draws before its start is passed leaves the other too few tasks; who passes before its post
// is held with a task that the others then settle too late.
#[test]
fn a_comparison_is_worked_behind_the_start_and_before_the_call(
    rt: HostRuntime,
) -> Result<(), Fail> {
    for (limit, alone, then) in HELD {
        let gate = HoldingGate::of(alone, then);
        gate.shut();
        let more = exceeds_by(&rt, rt.alloc(), 2, limit, &gate)?;
        assert!(rt; more);
        assert_eq!(rt; gate.counts(), [alone, then, 0]);
    }
    Ok(())
}

// How many of the four take the section where it is free, when that is asked past a shut gate by
// two workers who were asked at 104 before.
fn count_past<R: Abort + Threads + Wait + Sync>(
    rt: &R,
    alloc: Global,
    gate: &HoldingGate,
) -> Result<u32, Fail> {
    let crowd = Arc::new(alloc, rivals(rt, alloc, 4))?;
    let dear = [at(alloc, 104)?];
    let free = [at(alloc, 0)?];
    assert!(rt; all_have_prices(&crowd, &dear));
    assert!(rt; all_have_prices(&crowd, &free));
    let mut demands = PooledDemands::make(Pool::reserve(alloc, 2)?, crowd, gate);
    demands.counts(rt, alloc, &dear)?;
    gate.shut();
    let found = demands.counts(rt, alloc, &free)?;
    Ok(only(rt, &found))
}

// The same where each of the four is asked anew.
#[test]
fn a_count_is_worked_behind_the_start(rt: HostRuntime) -> Result<(), Fail> {
    let gate = HoldingGate::of(4, 0);
    let count = count_past(&rt, rt.alloc(), &gate)?;
    assert_eq!(rt; count, 4);
    assert_eq!(rt; gate.counts(), [4, 0, 0]);
    Ok(())
}
