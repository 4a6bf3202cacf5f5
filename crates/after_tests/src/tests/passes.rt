// What each worker of an audit passes at its gate: of which kind, how often, and in which order.
use crate::tests::audits::audit_four;
use market_edge::{Gate, Stop};
use market_units::{MAX_WORKERS, NoMemory};
use std::alloc::Global;
use std::sync::atomic::{AtomicU64, Ordering};
use std::test::Fail;

// How often a worker looks for the other one before it passes on alone.
const TURNS: u32 = 1_000_000_000;

// What one worker passed.
#[derive(Drop)]
struct Trail {
    starts: AtomicU64,
    calls: AtomicU64,
}

/// Keeps the trail of each worker. It holds the first at its start until the second has made so
/// many calls.
#[derive(Drop)]
struct KeepingGate {
    trails: Vec<Trail>,
    before: u64,
    // The calls before a start, and the passes of sessions and of other numbers.
    strange: AtomicU64,
    // How often the first worker passed on alone.
    missed: AtomicU64,
}

impl KeepingGate {
    fn of(alloc: Global, before: u64) -> Result<Self, NoMemory> {
        let mut trails = Vec::new(alloc);
        for _ in 0..MAX_WORKERS {
            trails.push(Trail {
                starts: AtomicU64::new(0),
                calls: AtomicU64::new(0),
            })?;
        }
        Ok(KeepingGate {
            trails,
            before,
            strange: AtomicU64::new(0),
            missed: AtomicU64::new(0),
        })
    }

    // The starts and calls of a worker.
    fn counts(&self, number: u16) -> (u64, u64) {
        match self.trails.get(usize::from(number).wrapping_sub(1)) {
            Some(trail) => (count(&trail.starts), count(&trail.calls)),
            None => (0, 0),
        }
    }

    // How many calls all workers made.
    fn calls(&self) -> u64 {
        let mut sum: u64 = 0;
        for trail in &self.trails {
            sum = sum.wrapping_add(count(&trail.calls));
        }
        sum
    }

    fn hold(&self) {
        for _ in 0..TURNS {
            let (_, calls) = self.counts(2);
            if calls >= self.before {
                return;
            }
        }
        add_one(&self.missed);
    }

    // What counts the passes of this stop.
    fn counter(&self, stop: Stop) -> &AtomicU64 {
        let (Stop::WorkerStart(number) | Stop::WorkerCall(number)) = stop else {
            return &self.strange;
        };
        let Some(trail) = self.trails.get(usize::from(number).wrapping_sub(1)) else {
            return &self.strange;
        };
        match stop {
            Stop::WorkerStart(_) => &trail.starts,
            _ if count(&trail.starts) > 0 => &trail.calls,
            _ => &self.strange,
        }
    }
}

impl Gate for KeepingGate {
    fn pass(&self, stop: Stop) {
        add_one(self.counter(stop));
        if stop == Stop::WorkerStart(1) {
            self.hold();
        }
    }
}

fn count(counter: &AtomicU64) -> u64 {
    counter.load(Ordering::SeqCst)
}

fn add_one(counter: &AtomicU64) {
    counter.fetch_add(1, Ordering::SeqCst);
}

// Each worker starts once, and calls behind that: all together once for each of four rows.
#[test]
fn each_row_passes_the_gate(rt: HostRuntime) -> Result<(), Fail> {
    let alloc = rt.alloc();
    for workers in [1, 2, 3, 16] {
        let gate = KeepingGate::of(alloc, 0)?;
        audit_four(&rt, alloc, workers, &gate)?;
        for number in 1..=MAX_WORKERS {
            let (starts, _) = gate.counts(number);
            let wanted = if number <= workers { 1 } else { 0 };
            assert_eq!(rt; starts, wanted, "{number} of {workers}");
        }
        assert_eq!(rt; gate.calls(), 4, "{workers} workers");
        assert_eq!(rt; count(&gate.strange), 0, "{workers} workers");
    }
    Ok(())
}

// Who draws before its start is passed leaves the other too few rows.
#[test]
fn an_audit_is_worked_behind_the_start(rt: HostRuntime) -> Result<(), Fail> {
    let gate = KeepingGate::of(rt.alloc(), 4)?;
    audit_four(&rt, rt.alloc(), 2, &gate)?;
    assert_eq!(rt; gate.counts(1), (1, 0));
    assert_eq!(rt; gate.counts(2), (1, 4));
    assert_eq!(rt; count(&gate.missed), 0);
    Ok(())
}
