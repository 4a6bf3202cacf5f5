use market_edge::{Gate, Stop};
use std::sync::atomic::{AtomicU64, Ordering};

// How often a session looks for the other one before it passes on alone.
const TURNS: u32 = 1_000_000_000;

/// Holds the second session at its start until the last call of the first, and the first session
/// there until the last call of the second. Each makes two calls.
#[derive(Drop)]
pub struct HoldingGate {
    pub first_calls: AtomicU64,
    pub second_calls: AtomicU64,
    /// How often a session passed on alone.
    pub missed: AtomicU64,
}

impl HoldingGate {
    /// The gate before a hall opens: no session has called, and none has passed on alone.
    pub fn new() -> Self {
        HoldingGate {
            first_calls: AtomicU64::new(0),
            second_calls: AtomicU64::new(0),
            missed: AtomicU64::new(0),
        }
    }

    // Waits until the other session has made its two calls.
    fn hold(&self, calls: &AtomicU64) {
        for _ in 0..TURNS {
            if calls.load(Ordering::SeqCst) == 2 {
                return;
            }
        }
        self.missed.fetch_add(1, Ordering::SeqCst);
    }
}

impl Gate for HoldingGate {
    fn pass(&self, stop: Stop) {
        match stop {
            Stop::SessionStart(2) => self.hold(&self.first_calls),
            Stop::SessionCall(1) => {
                if self.first_calls.fetch_add(1, Ordering::SeqCst) == 1 {
                    self.hold(&self.second_calls);
                }
            }
            Stop::SessionCall(2) => {
                self.second_calls.fetch_add(1, Ordering::SeqCst);
            }
            _ => {}
        }
    }
}
