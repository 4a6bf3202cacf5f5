// Each call below the top call that hands its gate on, with a gate that counts.
use crate::tests::opened_halls::hall_of;
use crate::tests::told_audits::audited;
use made_run::{Numbers, made_summary};
use market_edge::{Gate, Stop};
use market_units::MAX_WORKERS;
use std::alloc::Global;
use std::process::Abort;
use std::sync::Wait;
use std::sync::atomic::{AtomicU64, Ordering};
use std::thread::Threads;
use worked_terms::{EQUAL_ENVY, EQUAL_MARKET};

// Counts the stops of sessions, the starts of the worker of one number, and those of workers of
// greater numbers.
#[derive(Drop)]
struct Watch {
    last: u16,
    sessions: AtomicU64,
    starts: AtomicU64,
    beyond: AtomicU64,
}

impl Watch {
    fn of(last: u16) -> Self {
        Watch {
            last,
            sessions: AtomicU64::new(0),
            starts: AtomicU64::new(0),
            beyond: AtomicU64::new(0),
        }
    }

    fn counts(&self) -> (u64, u64, u64) {
        (
            count(&self.sessions),
            count(&self.starts),
            count(&self.beyond),
        )
    }
}

impl Gate for Watch {
    fn pass(&self, stop: Stop) {
        match stop {
            Stop::SessionStart(_) | Stop::SessionCall(_) => add_one(&self.sessions),
            Stop::WorkerStart(number) if number == self.last => add_one(&self.starts),
            Stop::WorkerStart(number) if number > self.last => add_one(&self.beyond),
            _ => {}
        }
    }
}

fn count(counter: &AtomicU64) -> u64 {
    counter.load(Ordering::SeqCst)
}

fn add_one(counter: &AtomicU64) {
    counter.fetch_add(1, Ordering::SeqCst);
}

// One session of four requests stands before its first one and after each.
#[test]
fn a_hall_passes_the_gate(rt: HostRuntime) {
    let watch = Watch::of(1);
    let hall = hall_of(&rt, rt.alloc(), EQUAL_MARKET.term.text.as_bytes(), &watch);
    assert!(rt; hall.is_ok());
    assert_eq!(rt; watch.counts(), (5, 0, 0));
}

// An audit by so many workers, each of which starts with the rows of the second stage and with the
// final ones.
fn try_audit<R: Abort + Threads + Wait + Sync>(rt: &R, alloc: Global, workers: u16) {
    let watch = Watch::of(workers);
    let text = EQUAL_MARKET.term.text.as_bytes();
    let written = audited(rt, alloc, &EQUAL_MARKET, text, workers, &watch);
    let written = written.expect(rt, "an accepted text");
    assert!(rt; written.as_slice() == EQUAL_ENVY.as_bytes());
    assert_eq!(rt; watch.counts(), (0, 2, 0), "{workers} workers");
}

#[test]
fn an_audit_passes_the_gate(rt: HostRuntime) {
    for workers in [1, 2, 16] {
        try_audit(&rt, rt.alloc(), workers);
    }
}

// A made market of two students, each of whom gives three commands, by so many workers.
fn try_made<R: Abort + Threads + Wait + Sync>(rt: &R, alloc: Global, workers: u16) {
    assert!(rt; 1 <= workers && workers <= MAX_WORKERS);
    let watch = Watch::of(workers);
    let numbers = Numbers {
        seed: 7,
        students: 2,
        sections: 2,
        accept: 0,
    };
    let made = made_summary(rt, alloc, workers, numbers, &watch);
    assert!(rt; made.is_ok());
    let (sessions, starts, beyond) = watch.counts();
    assert!(rt; starts > 0, "{workers} workers");
    assert_eq!(rt; (sessions, beyond), (8, 0), "{workers} workers");
}

#[test]
fn a_made_market_passes_the_gate(rt: HostRuntime) {
    for workers in [1, 2, 16] {
        try_made(&rt, rt.alloc(), workers);
    }
}
