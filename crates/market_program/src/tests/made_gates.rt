// The sessions and workers of a made market that meet.
use super::gates::{assert_counts, assert_workers_met, done_past};
use super::*;
use market_edge::{MeetingGate, Stop};
use std::sync::atomic::{AtomicU64, Ordering};

// How often a worker looks for the others before it passes on alone.
const TURNS: u32 = 1_000_000_000;

// Two sessions whose calls meet, and two workers: each student rates two sections and pairs them,
// and there is a task for each of two students.
#[test]
fn two_workers_of_a_made_market_post_at_once(rt: HostRuntime) -> Result<(), Fail> {
    let gate = MeetingGate::new();
    done_past(&rt, rt.alloc(), "make 2 7 2 2 0", &[], &gate)?;
    assert_counts(&rt, &gate, [(1, 3), (1, 3), (0, 0)]);
    assert_workers_met(&rt, &gate, 2);
    Ok(())
}

/// Lets no worker past its first post before four have posted.
#[derive(Drop)]
struct FourGate {
    posts: [AtomicU64; 4],
    // How often a worker passed on without the others.
    missed: AtomicU64,
}

impl FourGate {
    fn new() -> Self {
        FourGate {
            posts: [
                AtomicU64::new(0),
                AtomicU64::new(0),
                AtomicU64::new(0),
                AtomicU64::new(0),
            ],
            missed: AtomicU64::new(0),
        }
    }

    fn have_all_posted(&self) -> bool {
        for posts in &self.posts {
            if posts.load(Ordering::SeqCst) == 0 {
                return false;
            }
        }
        true
    }
}

impl Gate for FourGate {
    fn pass(&self, stop: Stop) {
        let Stop::WorkerCall(number) = stop else {
            return;
        };
        let Some(posts) = self.posts.get(usize::from(number).wrapping_sub(1)) else {
            return;
        };
        posts.fetch_add(1, Ordering::SeqCst);
        for _ in 0..TURNS {
            if self.have_all_posted() {
                return;
            }
        }
        self.missed.fetch_add(1, Ordering::SeqCst);
    }
}

// Four workers who meet make what one worker makes, to the byte.
#[test]
fn four_workers_make_what_one_makes(rt: HostRuntime) -> Result<(), Fail> {
    let alloc = rt.alloc();
    let line = "make 1 11 300 60 1000000000000";
    let alone = done_past(&rt, alloc, line, &[], &OpenGate)?;
    let gate = FourGate::new();
    let line = "make 4 11 300 60 1000000000000";
    let together = done_past(&rt, alloc, line, &[], &gate)?;
    assert_eq!(rt; together, alone);
    assert!(rt; gate.have_all_posted());
    assert_eq!(rt; gate.missed.load(Ordering::SeqCst), 0);
    Ok(())
}
