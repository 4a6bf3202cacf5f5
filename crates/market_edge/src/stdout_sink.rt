// A writer of std, as standard output. What it takes is not told: this is the trusted edge.
ghost use Rattle.std.specs.Prelude.{◌≡◌, None, OnErr};
ghost use Rattle.std.specs.Io.KnownBytes.{WriteAppends};
ghost use Rattle.market_units.specs.Counts.{one_more};
ghost use Rattle.market_edge.specs.Sinks.{IsWrite};

use crate::{Failed, Sink};
use std::io::Write;

/// Standard output, or another writer of std. A write that takes no byte is a fault, as one that
/// fails is.
#[derive(Drop)]
pub struct StdoutSink<W: Write + Drop> {
    writer: W,
    faults: u64,
}

impl<W: Write + Drop> StdoutSink<W> {
    ghost use Rattle.market_edge.specs.StdoutSinks.{writer_of};

    /// A sink over this writer.
    pub fn new(writer: W) -> Self
        ensures writer { writer_of result ≡ writer }
        ensures faults { (⟦<StdoutSink<W> as Sink>⟧.shows result).faults ≡ 0 }
    {
        StdoutSink { writer, faults: 0 }
    }
}

impl<W: Write + Drop> Sink for StdoutSink<W> {
    ghost use Rattle.market_edge.specs.StdoutSinks.{writer_of};

    ghost shows = { λ sink. record { taken = None; faults = sink.faults } };

    fn write(&mut self, piece: &[u8]) -> Result<usize, Failed>
        ensures writes { IsWrite (⟦<StdoutSink<W> as Sink>⟧.shows self.old)
            (⟦<StdoutSink<W> as Sink>⟧.shows self.new) piece.now result }

        // The piece is passed on to the writer once: what the writer took of it is what is
        // answered, and after a failed call it took none.
        ensures passed { WriteAppends (W.contents (writer_of self.old))
            (W.contents (writer_of self.new)) result piece.now }

        // Each failure is counted.
        ensures counted { OnErr result
            ((⟦<StdoutSink<W> as Sink>⟧.shows self.new).faults
            ≡ one_more (⟦<StdoutSink<W> as Sink>⟧.shows self.old).faults) }
    {
        match self.writer.write(piece) {
            Ok(count) if count > 0 => Ok(count),
            _ => {
                self.faults = self.faults.saturating_add(1);
                Err(Failed)
            }
        }
    }
}
