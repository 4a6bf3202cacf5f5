// Where threads sleep until their turns.
ghost use Rattle.std.specs.Prelude.{◌≡◌, ◌≤◌, ◌%◌, IfOk};

use crossbeam_utils::CachePadded;
use market_units::NoMemory;
use std::alloc::Global;
use std::marker::Model;
use std::sync::Wait;
use std::thread::Parker;
use std::time::Duration;

// How many microseconds a thread naps for each bell: where all but a few nap, one of them looks up
// as often as this.
const NAP: u64 = 16;

/// As many bells as there are seats. A thread sleeps at the bell of its ticket: the tickets that
/// wait follow one another and are no more than the seats, so no two of them have the same bell.
/// Where seats nap, each does so at the bell of its own number, among bells that nobody rings.
/// Contracts see how many there are.
#[derive(Drop)]
pub struct Bells {
    // Padded, so that a thread that sets its bell does not take the cache line of its neighbour's.
    parkers: Vec<CachePadded<Parker>>,
}

impl Model for Bells {
    ghost use Rattle.std.specs.Prelude.{ℕ, ◌≤◌, vec_len};

    ghost Value = { ℕ };

    ghost view = { λ bells. vec_len bells.parkers };

    ghost invariant = { λ bells. 1 ≤ vec_len bells.parkers };
}

impl Bells {
    /// A bell for each of so many seats.
    pub fn hang(alloc: Global, seats: usize) -> Result<Bells, NoMemory>
        requires { 1 ≤ seats }
        ensures { IfOk result (λ bells. bells ≡ seats) }
    {
        let mut parkers = Vec::with_capacity(alloc, seats)?;
        'seats: for _ in 0..seats {
            parkers.push(CachePadded::new(Parker::new()))?;
        }
        Ok(Bells { parkers })
    }

    /// Sleeps until the bell of this ticket rings, or has rung since it was last slept at.
    pub fn sleep<R: Wait>(&self, rt: &R, ticket: u64) {
        self.of(ticket).park(rt);
    }

    /// Rings the bell of this ticket. A late or needless ring costs whoever sleeps there one look
    /// more, and never takes a needed one away: a bell keeps one ring, and the ring for a ticket
    /// comes after the ticket is served.
    pub fn ring(&self, ticket: u64) {
        self.of(ticket).unpark();
    }

    /// Sleeps for a moment at the bell of this seat.
    pub fn nap<R: Wait>(&self, rt: &R, seat: u16) {
        let micros = NAP.saturating_mul(self.parkers.len() as u64);
        self.of(u64::from(seat))
            .park_timeout(rt, Duration::from_micros(micros));
    }

    fn of(&self, ticket: u64) -> &Parker {
        &self.parkers[self.place_of(ticket)]
    }

    // Which bell is that of this ticket.
    fn place_of(&self, ticket: u64) -> usize
        ensures { result ≡ ticket % self.now }
    {
        (ticket % self.parkers.len() as u64) as usize
    }
}
