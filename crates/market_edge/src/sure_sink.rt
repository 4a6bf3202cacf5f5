// A sink in memory that never fails.
ghost use Rattle.std.specs.Prelude.{◌≡◌, ◌<◌, ◌≤◌, ◌+◌, ◌^◌, ◌-◌, ◌↔◌, [], Some, None, length, min, Ok, IfOk, IsNone, IfSome, IfNone, vec_capacity};
ghost use Rattle.market_edge.specs.Sinks.{IsWrite, told_within};

use crate::{Failed, Sink};
use market_units::NoMemory;
use std::alloc::Global;

/// A sink that takes every byte, and tells them while they are at most so many. Once more were
/// taken it tells nothing.
#[derive(Drop)]
pub struct SureSink {
    bytes: Vec<u8>,
    size: usize,
    // It goes past `size` and stays at the greatest `usize`: no sink of that size can be made, so
    // it still says "more than `size`".
    count: usize,
    ghost reserved: { size ≤ vec_capacity bytes },
    ghost counted: { count ≤ size → length bytes.items ≡ count },
}

impl SureSink {
    ghost use Rattle.market_edge.specs.SureSinks.{count_of, size_of, told_bytes};

    /// A sink that has taken nothing yet, and tells at most `size` bytes. Their room is reserved
    /// here.
    pub fn make(alloc: Global, size: usize) -> Result<SureSink, NoMemory>
        ensures taken { IfOk result (λ sink. told_bytes sink ≡ Some []) }
        ensures size { IfOk result (λ sink. size_of sink ≡ size) }
        ensures count { IfOk result (λ sink. count_of sink ≡ 0) }
    {
        Ok(SureSink {
            bytes: Vec::with_capacity(alloc, size)?,
            size,
            count: 0,
        })
    }

    /// The bytes that it has taken; none exactly where these are more than `size`.
    pub fn taken(&self) -> Option<&[u8]>
        ensures told { IfSome result (λ bytes. told_bytes self.now ≡ Some bytes.now) }
        ensures untold { IfNone result (told_bytes self.now ≡ None) }
        ensures past { IsNone result ↔ (size_of self.now < count_of self.now) }
    {
        if self.count > self.size {
            return None;
        }
        Some(&self.bytes)
    }
}

impl Sink for SureSink {
    ghost use Rattle.market_edge.specs.SureSinks.{count_of, shown_by, size_of, told_bytes};

    ghost shows = { shown_by };

    fn write(&mut self, piece: &[u8]) -> Result<usize, Failed>
        ensures writes { IsWrite (shown_by self.old) (shown_by self.new) piece.now result }

        // It never fails, and takes the whole piece.
        ensures whole { result ≡ Ok (length piece.now) }
        ensures told { told_bytes self.new
            ≡ told_within (size_of self.old) (told_bytes self.old) piece.now }
        ensures count { count_of self.new
            ≡ min (count_of self.old + length piece.now) (2 ^ 64 - 1) }
        ensures size { size_of self.new ≡ size_of self.old }
    {
        self.count = self.count.saturating_add(piece.len());
        if self.count <= self.size {
            match self.bytes.extend_from_slice(piece) {
                Ok(()) => {}
                Err(_) => unreachable!(),
            }
        }
        Ok(piece.len())
    }
}
