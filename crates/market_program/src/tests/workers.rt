// How many workers a call has.
use super::*;
use market_edge::Stop;
use std::sync::atomic::{AtomicU64, Ordering};

// Counts the starts of the worker of one number, and those of workers of greater numbers.
#[derive(Drop)]
struct Watch {
    last: u16,
    starts: AtomicU64,
    beyond: AtomicU64,
}

impl Gate for Watch {
    fn pass(&self, stop: Stop) {
        let counter = match stop {
            Stop::WorkerStart(number) if number == self.last => &self.starts,
            Stop::WorkerStart(number) if number > self.last => &self.beyond,
            _ => return,
        };
        counter.fetch_add(1, Ordering::SeqCst);
    }
}

const LINES: [(u16, &str); 9] = [
    (1, "make 1 7 2 2 0"),
    (2, "make 2 7 2 2 0"),
    (16, "make 16 7 2 2 0"),
    (1, "audit 1 four.cat four.stu four.set four.text four.s1"),
    (2, "audit 2 four.cat four.stu four.set four.text four.s1"),
    (16, "audit 16 four.cat four.stu four.set four.text four.s1"),
    (16, "run 16 four.cat four.stu four.set four.s1"),
    (2, "demand 2 four.cat four.stu four.set X=102 four.s1"),
    (16, "demand 16 four.cat four.stu four.set X=102 four.s1"),
];

fn assert_watched<R: Abort>(rt: &R, line: &str, status: Status, watch: &Watch) {
    assert_eq!(rt; status, Status::Done, "{line}");
    assert!(rt; watch.starts.load(Ordering::SeqCst) > 0, "{line}");
    assert_eq!(rt; watch.beyond.load(Ordering::SeqCst), 0, "{line}");
}

// As many workers as the words name pass the gate, and no more.
#[test]
fn as_many_workers_as_named(rt: HostRuntime) -> Result<(), Fail> {
    for (last, line) in LINES {
        let watch = Watch {
            last,
            starts: AtomicU64::new(0),
            beyond: AtomicU64::new(0),
        };
        let (status, _) = run_by(&rt, rt.alloc(), line, (0, 0), ROOM, &watch)?;
        assert_watched(&rt, line, status, &watch);
    }
    Ok(())
}
