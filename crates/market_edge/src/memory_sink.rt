// A sink in memory, for tests.
ghost use Rattle.std.specs.Prelude.{◌≡◌, ◌≤◌, ◌⊎◌, ◌↔◌, ◌-◌, [], length, min, IfOk, OnErr, IsErr, IsTrue, Contains, vec_capacity};
ghost use Rattle.market_units.specs.Counts.{one_more};
ghost use Rattle.market_edge.specs.Sinks.{IsWrite};

use crate::{Failed, Sink};
use market_units::NoMemory;
use std::alloc::Global;

/// A sink with room for so many bytes, whose writes of certain numbers fail. Writes are numbered
/// from 1.
#[derive(Drop)]
pub struct MemorySink {
    bytes: Vec<u8>,
    size: usize,
    failing: Vec<u64>,
    writes: u64,
    faults: u64,
    ghost within: { length bytes.items ≤ size },
    ghost reserved: { size ≤ vec_capacity bytes },
}

impl MemorySink {
    ghost use Rattle.market_edge.specs.MemorySinks.{bytes_of, size_of, failing_of, writes_of, faults_of, IsRefused};

    /// A sink that has taken nothing yet. Its room is reserved here.
    pub fn make(alloc: Global, size: usize, failing: Vec<u64>) -> Result<MemorySink, NoMemory>
        ensures bytes { IfOk result (λ sink. bytes_of sink ≡ []) }
        ensures size { IfOk result (λ sink. size_of sink ≡ size) }
        ensures failing { IfOk result (λ sink. failing_of sink ≡ failing.items) }
        ensures writes { IfOk result (λ sink. writes_of sink ≡ 0) }
        ensures faults { IfOk result (λ sink. faults_of sink ≡ 0) }
    {
        Ok(MemorySink {
            bytes: Vec::with_capacity(alloc, size)?,
            size,
            failing,
            writes: 0,
            faults: 0,
        })
    }

    /// The bytes that it has taken.
    pub fn taken(&self) -> &[u8]
        ensures { result.now ≡ bytes_of self.now }
    {
        &self.bytes
    }

    // Whether the next write is to fail.
    fn is_refused(&self) -> bool
        ensures { IsTrue result ↔ IsRefused self.now }
    {
        self.bytes.len() == self.size || is_named(&self.failing, self.writes.saturating_add(1))
    }
}

impl Sink for MemorySink {
    ghost use Rattle.market_edge.specs.MemorySinks.{IsNextWrite, IsRefused, bytes_of, faults_of, size_of, taken_by};

    ghost shows = { taken_by };

    fn write(&mut self, piece: &[u8]) -> Result<usize, Failed>
        ensures writes { IsWrite (taken_by self.old) (taken_by self.new) piece.now result }

        // It fails exactly at the calls of these numbers, and where no room is left; each failure
        // is counted.
        ensures fails { IsErr result ↔ IsRefused self.old }
        ensures most { IfOk result
            (λ n. n ≡ min (length piece.now) (size_of self.old - length (bytes_of self.old))) }
        ensures counted { OnErr result (faults_of self.new ≡ one_more (faults_of self.old)) }
        ensures next { IsNextWrite self.old self.new }
    {
        let is_refused = self.is_refused();
        self.writes = self.writes.saturating_add(1);
        if is_refused {
            self.faults = self.faults.saturating_add(1);
            return Err(Failed);
        }
        let count = piece.len().min(self.size - self.bytes.len());
        match self.bytes.extend_from_slice(&piece[..count]) {
            Ok(()) => Ok(count),
            Err(_) => unreachable!(),
        }
    }
}

fn is_named(failing: &[u64], number: u64) -> bool
    ensures { IsTrue result ↔ Contains failing.now number }
{
    failing.contains(&number)
}
