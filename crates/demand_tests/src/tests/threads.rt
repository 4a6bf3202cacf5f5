// How many threads work at once, where there are more elements than threads.
use std::sync::atomic::{AtomicU64, Ordering};
use std::test::Fail;
use worker_threads::for_each_mut;

// So many elements leave no thread of one to four idle, nor one more.
const ELEMENTS: usize = 20;

// How often a thread looks for the others before it goes on without them.
const TURNS: u32 = 1_000_000_000;

// How often it looks whether there is one too many.
const MOMENT: u32 = 1_000_000;

/// Counts the threads that are inside at once.
#[derive(Drop)]
struct Room {
    threads: u64,
    inside: AtomicU64,
    most: AtomicU64,
    // How often a thread went on without the others.
    missed: AtomicU64,
}

impl Room {
    fn of(threads: u64) -> Self {
        Room {
            threads,
            inside: AtomicU64::new(0),
            most: AtomicU64::new(0),
            missed: AtomicU64::new(0),
        }
    }

    fn most(&self) -> u64 {
        self.most.load(Ordering::SeqCst)
    }

    fn missed(&self) -> u64 {
        self.missed.load(Ordering::SeqCst)
    }

    // Goes in, stays until all threads are inside and a moment longer, and goes out.
    fn visit(&self) {
        let before = self.inside.fetch_add(1, Ordering::SeqCst);
        self.most
            .fetch_max(before.wrapping_add(1), Ordering::SeqCst);
        self.meet();
        self.watch();
        self.inside.fetch_sub(1, Ordering::SeqCst);
    }

    fn meet(&self) {
        for _ in 0..TURNS {
            if self.most() >= self.threads || self.missed() > 0 {
                return;
            }
        }
        self.missed.fetch_add(1, Ordering::SeqCst);
    }

    // Waits for a moment, or until a thread too many is inside.
    fn watch(&self) {
        for _ in 0..MOMENT {
            if self.most() > self.threads {
                return;
            }
        }
    }
}

// Each element is visited once, by as many threads as may be, and no more.
#[test]
fn as_many_threads_as_said(rt: HostRuntime) -> Result<(), Fail> {
    for threads in 1..=4 {
        let room = Room::of(threads);
        let mut visits = [0u32; ELEMENTS];
        for_each_mut(
            &rt,
            &mut visits,
            threads as usize,
            &|_n, count| {
                *count = count.wrapping_add(1);
                room.visit();
            },
        );
        assert_eq!(rt; visits, [1; ELEMENTS]);
        assert_eq!(rt; room.most(), threads);
        assert_eq!(rt; room.missed(), 0, "{threads} threads");
    }
    Ok(())
}
