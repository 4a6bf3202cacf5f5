// The top call where nothing outside fails.
ghost use Rattle.std.specs.Prelude.{◌≢◌, ℕ, map};
ghost use Rattle.std.specs.String.{string_bytes};
ghost use Rattle.market_host.specs.Answers.{IsAnswered};
ghost use Rattle.market_host.specs.Completeness.{CanBeDone, EndsWork};
ghost use Rattle.market_host.specs.{Sights.sight, Sights.writing, Traces.trace};

use crate::Status;
use crate::host::course_match;
use market_edge::{Gate, Shelf, Sink, SureShelf, SureSink};
use std::alloc::Global;
use std::sync::Wait;
use std::thread::Threads;

/// Does what `course_match` does, over a shelf and a sink that never fail: no words are answered by
/// a fault of either, so no input is one that can't be read, and each text is taken whole. Where
/// every input is held and in order, the work is ended, or memory is wanted.
pub fn sure_match<R: Threads + Wait + Sync>(
    rt: &R,
    alloc: Global,
    words: &[String],
    shelf: &mut SureShelf,
    sink: &mut SureSink,
    gate: &(dyn Gate + Sync),
) -> Status
    // The status is that of the outcome, and the sink took its text.
    ensures answered { IsAnswered (map string_bytes words.now)
        (sight ⟦<SureShelf as Shelf>⟧ shelf.old shelf.new)
        (trace ⟦<SureShelf as Shelf>⟧ shelf.old shelf.new)
        (writing ⟦<SureSink as Sink>⟧ sink.old sink.new) result }

    ensures read { (input : ℕ) → result ≢ Status.ShelfFault input }
    ensures taken { result ≢ Status.SinkFault }
    ensures complete { CanBeDone (map string_bytes words.now)
        (sight ⟦<SureShelf as Shelf>⟧ shelf.old shelf.new)
        → EndsWork result }
{
    course_match(rt, alloc, words, shelf, sink, gate)
}
