// Seats that add to one sum, by one thread and by several.
ghost use Rattle.std.specs.Prelude.{◌≡◌, ◌<◌, ◌≤◌, All, ℕ, length, slice_index_or};

use adder::Adder;
use chronicle::{Chronicle, Journal, Seat, Step};
use market_units::NoMemory;
use std::alloc::Global;
use std::process::Abort;
use std::sync::Wait;
use std::sync::atomic::{AtomicU64, Ordering};
use std::test::Fail;
use std::thread;
use std::thread::Threads;
use std::time::{Clock, Duration};

mod adder;

// How many threads share the history.
const THREADS: u64 = 4;

// How often each thread calls.
const CALLS: u64 = 50;

// How often a thread looks for the others before it calls without them.
const TURNS: u32 = 1_000_000_000;

// How long a step takes that makes the other threads sleep, in looks of theirs.
const SLOW: u32 = 6000;

// How long the threads may take, in milliseconds, before the test fails.
const PATIENCE: u32 = 30_000;

// Closes with seats that stand at their numbers.
fn close_in_order(chronicle: Chronicle<Adder>, seats: Vec<Seat<Adder>>) -> (Adder, Journal<Adder>)
    requires chronicle { All (λ s. s.chronicle ≡ Some chronicle) seats.items }
    requires count { length chronicle.allotments ≤ length seats.items }
    requires numbers { (n : ℕ) (d : _) → n < length seats.items
        → (slice_index_or seats.items n d).number ≡ n }
{
    chronicle.close(seats)
}

// The replies to two seats that one thread calls, and what the chronicle leaves.
fn call_by_turns<R: Wait>(
    rt: &R,
    alloc: Global,
) -> Result<([u64; 3], Adder, Journal<Adder>), NoMemory> {
    let allotments = vec![in alloc; 2u64, 1u64]?;
    let adder = Adder {
        sum: 0,
        room: 3,
        pause: 0,
    };
    let (chronicle, mut seats) = Chronicle::start(alloc, adder, allotments)?;
    let first = chronicle.call(rt, &mut seats[0], 5);
    let second = chronicle.call(rt, &mut seats[1], 7);
    let third = chronicle.call(rt, &mut seats[0], 1);
    let closed = close_in_order(chronicle, seats);
    Ok(([first, second, third], closed.0, closed.1))
}

// Whether these are the steps: the seat, its request, and the reply.
fn are_steps(steps: &[Step<Adder>], wanted: &[(u16, u32, u64)]) -> bool {
    if steps.len() != wanted.len() {
        return false;
    }
    for place in 0..steps.len() {
        let step = steps[place];
        if (step.seat, step.request, step.reply) != wanted[place] {
            return false;
        }
    }
    true
}

// Two seats, called by one thread.
#[test]
fn each_reply_is_the_sum(rt: HostRuntime) -> Result<(), Fail> {
    let (replies, adder, journal) = call_by_turns(&rt, rt.alloc())?;
    assert_eq!(rt; replies, [5, 12, 13]);
    assert_eq!(rt; adder.sum, 13);
    let wanted = [(0, 5, 5), (1, 7, 12), (0, 1, 13)];
    assert!(rt; are_steps(journal.steps(), &wanted));
    Ok(())
}

// Where the threads meet before their first calls.
#[derive(Drop)]
struct Meeting {
    come: AtomicU64,
    missed: AtomicU64,
}

impl Meeting {
    fn new() -> Self {
        Meeting {
            come: AtomicU64::new(0),
            missed: AtomicU64::new(0),
        }
    }

    // Waits until all threads have come, and counts a thread that waits in vain.
    fn meet(&self) {
        self.come.fetch_add(1, Ordering::SeqCst);
        for _ in 0..TURNS {
            if self.come.load(Ordering::SeqCst) == THREADS {
                return;
            }
        }
        self.missed.fetch_add(1, Ordering::SeqCst);
    }
}

// Calls with requests from 1 to 4, by the seat's number, once all threads have come.
fn call_often<R: Wait>(
    rt: &R,
    chronicle: &Chronicle<Adder>,
    seat: &mut Seat<Adder>,
    meeting: &Meeting,
)
    requires chronicle { seat.old.chronicle ≡ Some chronicle.now }
    requires left { seat.old.left ≡ CALLS }
    ensures chronicle { seat.new.chronicle ≡ seat.old.chronicle }
    ensures number { seat.new.number ≡ seat.old.number }
{
    let request = u32::from(seat.number() % 4) + 1;
    meeting.meet();
    for _ in 0..CALLS {
        chronicle.call(rt, seat, request);
    }
}

// Each seat calls in a thread of its own.
fn call_all<R: Threads + Wait + Sync>(
    rt: &R,
    chronicle: &Chronicle<Adder>,
    seats: &mut [Seat<Adder>],
    meeting: &Meeting,
)
    requires { All (λ s. (s.chronicle ≡ Some chronicle.now) × (s.left ≡ CALLS)) seats.old }
    ensures chronicle { (i : ℕ) (d : _) → i < length seats.old
        → (slice_index_or seats.new i d).chronicle ≡ (slice_index_or seats.old i d).chronicle }
    ensures number { (i : ℕ) (d : _) → i < length seats.old
        → (slice_index_or seats.new i d).number ≡ (slice_index_or seats.old i d).number }
{
    let threads = seats.len();
    if threads == 0 {
        return;
    }
    thread::for_each_mut(
        rt,
        seats,
        threads,
        &|_, seat| call_often(rt, chronicle, seat, meeting),
    );
}

// The steps of the seat with this number, which replied the sums, among all of them.
fn count_calls(steps: &[Step<Adder>], seat: u16) -> Option<u64> {
    let mut sum = 0u64;
    let mut calls = 0u64;
    for step in steps {
        sum = sum.wrapping_add(u64::from(step.request));
        if step.reply != sum {
            return None;
        }
        if step.seat == seat {
            calls = calls.wrapping_add(1);
        }
    }
    Some(calls)
}

// What four seats leave that call at once, each in a thread of its own.
fn call_at_once<R: Threads + Wait + Sync>(
    rt: &R,
    alloc: Global,
    meeting: &Meeting,
) -> Result<(Adder, Journal<Adder>), NoMemory> {
    let allotments = vec![in alloc; CALLS, CALLS, CALLS, CALLS]?;
    let adder = Adder {
        sum: 0,
        room: THREADS * CALLS,
        pause: SLOW,
    };
    let (chronicle, mut seats) = Chronicle::start(alloc, adder, allotments)?;
    call_all(rt, &chronicle, seats.as_mut_slice(), meeting);
    let closed = close_in_order(chronicle, seats);
    Ok(closed)
}

// The same, and tells that it is done.
fn call_and_tell<R: Threads + Wait + Sync>(
    rt: &R,
    alloc: Global,
    meeting: &Meeting,
    is_done: &AtomicU64,
) -> Result<(Adder, Journal<Adder>), NoMemory> {
    let closed = call_at_once(rt, alloc, meeting);
    is_done.store(1, Ordering::SeqCst);
    closed
}

// Ends the test where a thread sleeps that nobody wakes, which would else sleep for ever.
fn watch<R: Clock + Abort>(rt: &R, is_done: &AtomicU64) {
    for _ in 0..PATIENCE {
        if is_done.load(Ordering::SeqCst) == 1 {
            return;
        }
        thread::sleep(rt, Duration::from_millis(1));
    }
    panic!(rt; "a thread was not woken");
}

// Four threads that run at once share one history: none calls before all have come. Each sleeps
// while the others have their turns, and is woken.
#[test]
fn threads_share_one_history(rt: HostRuntime) -> Result<(), Fail> {
    let is_done = AtomicU64::new(0);
    let meeting = Meeting::new();
    let (_, closed) = thread::join(
        &rt,
        || watch(&rt, &is_done),
        || call_and_tell(&rt, rt.alloc(), &meeting, &is_done),
    );
    let (adder, journal) = closed?;
    assert_eq!(rt; meeting.missed.load(Ordering::SeqCst), 0);
    assert_eq!(rt; adder.sum, CALLS * 10);
    assert_eq!(rt; journal.steps().len(), 200);
    for seat in 0..4u16 {
        assert_eq!(rt; count_calls(journal.steps(), seat), Some(CALLS));
    }
    Ok(())
}
