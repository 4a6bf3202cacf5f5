// Where texts are written to.
ghost use Rattle.market_edge.specs.Sinks.{SinkState, IsWrite};

use crate::Failed;

/// Where texts are written to. A write that fails is counted, and nothing else is.
pub trait Sink {
    /// What it shows: the bytes that it has taken, where it tells, and its count of faults.
    ghost shows: { Self → SinkState };

    /// Takes bytes from the front of the piece, and answers how many: at least one, where the piece
    /// has one. A failed call takes none.
    fn write(&mut self, piece: &[u8]) -> Result<usize, Failed>
        ensures { IsWrite (shows self.old) (shows self.new) piece.now result };
}
