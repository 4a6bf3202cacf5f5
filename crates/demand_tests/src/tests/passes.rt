// What each worker passes at its gate: of which kind, how often, and in which order.
use crate::tests::rivals::rivals;
use crate::tests::workers::counts_by;
use demand_api::Demands;
use demand_workers::{Pool, PooledDemands};
use market_edge::{Gate, Stop};
use market_units::{MAX_WORKERS, NoMemory, SectionNo, Tokens};
use std::alloc::Global;
use std::process::Abort;
use std::sync::atomic::{AtomicU64, Ordering};
use std::sync::{Arc, Wait};
use std::test::Fail;
use std::thread::Threads;

// A worker starts so often at most, and once less.
const ROOM: usize = 8;

// What one worker passed: its starts; and its calls before the first of them, between the first
// and the second, and so on. That is all there is to know of its order.
#[derive(Drop)]
struct Trail {
    starts: AtomicU64,
    calls: Vec<AtomicU64>,
}

/// Keeps the trail of each worker.
#[derive(Drop)]
struct KeepingGate {
    trails: Vec<Trail>,
    // The passes of sessions and of other numbers, and the calls behind too many starts.
    strange: AtomicU64,
}

impl KeepingGate {
    fn new(alloc: Global) -> Result<Self, NoMemory> {
        let mut trails = Vec::new(alloc);
        for _ in 0..MAX_WORKERS {
            let mut calls = Vec::new(alloc);
            for _ in 0..ROOM {
                calls.push(AtomicU64::new(0))?;
            }
            let starts = AtomicU64::new(0);
            trails.push(Trail { starts, calls })?;
        }
        let strange = AtomicU64::new(0);
        Ok(KeepingGate { trails, strange })
    }

    fn trail_of(&self, number: u16) -> Option<&Trail> {
        self.trails.get(usize::from(number).wrapping_sub(1))
    }

    fn start_of(&self, number: u16) -> &AtomicU64 {
        match self.trail_of(number) {
            Some(trail) => &trail.starts,
            None => &self.strange,
        }
    }

    fn call_of(&self, number: u16) -> &AtomicU64 {
        let Some(trail) = self.trail_of(number) else {
            return &self.strange;
        };
        let behind = count(&trail.starts) as usize;
        match trail.calls.get(behind) {
            Some(calls) => calls,
            None => &self.strange,
        }
    }

    // How many calls all workers made, each behind so many starts of its own.
    fn calls_behind(&self, starts: usize) -> u64 {
        let mut sum: u64 = 0;
        for trail in &self.trails {
            if let Some(calls) = trail.calls.get(starts) {
                sum = sum.wrapping_add(count(calls));
            }
        }
        sum
    }
}

impl Gate for KeepingGate {
    fn pass(&self, stop: Stop) {
        let counter = match stop {
            Stop::WorkerStart(number) => self.start_of(number),
            Stop::WorkerCall(number) => self.call_of(number),
            _ => &self.strange,
        };
        counter.fetch_add(1, Ordering::SeqCst);
    }
}

fn count(counter: &AtomicU64) -> u64 {
    counter.load(Ordering::SeqCst)
}

// Nobody called before its start, and behind each start all workers together so often; no other
// passes were strange.
fn assert_called<R: Abort>(rt: &R, gate: &KeepingGate, calls: &[u64]) {
    assert_eq!(rt; gate.calls_behind(0), 0);
    for behind in 1..ROOM {
        let wanted = match calls.get(behind.wrapping_sub(1)) {
            Some(calls) => *calls,
            None => 0,
        };
        assert_eq!(rt; gate.calls_behind(behind), wanted, "behind {behind} starts");
    }
    assert_eq!(rt; count(&gate.strange), 0);
}

// Four students are asked at the first version, then all at the three cheaper ones. Each worker
// starts once for either round, and calls once for each post.
#[test]
fn counts_pass_the_gate(rt: HostRuntime) -> Result<(), Fail> {
    let alloc = rt.alloc();
    for workers in [1, 2, 3, 16] {
        let gate = KeepingGate::new(alloc)?;
        counts_by(&rt, alloc, workers, &gate)?;
        for number in 1..=MAX_WORKERS {
            let starts = if number <= workers { 2 } else { 0 };
            assert_eq!(rt;
                count(gate.start_of(number)),
                starts,
                "{number} of {workers}"
            );
        }
        assert_called(&rt, &gate, &[4, 12]);
    }
    Ok(())
}

// The least price from 106 up at which at most two of twelve students with budgets from 100 on take
// the section, by so many workers who asked all of them at 50 before.
fn least_price_by<R: Abort + Threads + Wait + Sync>(
    rt: &R,
    alloc: Global,
    workers: u16,
    gate: &KeepingGate,
) -> Result<Tokens, Fail> {
    assert!(rt; 1 <= workers && workers <= MAX_WORKERS);
    let crowd = Arc::new(alloc, rivals(rt, alloc, 12))?;
    let before = [Tokens(50)];
    let prices = [Tokens(106)];
    assert!(rt; crowd.has_prices(&before));
    assert!(rt; crowd.has_prices(&prices));
    assert_eq!(rt; crowd.sections, 1);
    let mut demands = PooledDemands::make(Pool::reserve(alloc, workers)?, crowd, gate);
    demands.bundles(rt, alloc, &before, &[])?;
    let found = demands.least_prices(rt, alloc, &prices, &[(SectionNo(0), 2)])?;
    assert_eq!(rt; found.len(), 1);
    Ok(found[0])
}

// Each worker starts once to ask all twelve. Six cannot pay 106: two workers, if there are as many,
// ask these. Of the other six the first asks four, each when it leaves, in a round of its own.
#[test]
fn least_prices_pass_the_gate(rt: HostRuntime) -> Result<(), Fail> {
    let alloc = rt.alloc();
    for workers in [1, 2, 3, 16] {
        let gate = KeepingGate::new(alloc)?;
        let least = least_price_by(&rt, alloc, workers, &gate)?;
        assert_eq!(rt; least, Tokens(110));
        for number in 1..=MAX_WORKERS {
            let starts = match number {
                1 => 6,
                2 if number <= workers => 2,
                _ if number <= workers => 1,
                _ => 0,
            };
            assert_eq!(rt;
                count(gate.start_of(number)),
                starts,
                "{number} of {workers}"
            );
        }
        assert_called(&rt, &gate, &[12, 6, 1, 1, 1, 1]);
    }
    Ok(())
}
