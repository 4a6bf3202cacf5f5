// The whole process, over whatever words, shelf, sink and gate it is given.
ghost use Rattle.std.specs.Global.{Global};
ghost use Rattle.std.specs.Prelude.{◌≡◌, Result, Vec, String};
ghost use Rattle.std.specs.Process.{exit_status};
ghost use Rattle.market_edge.specs.GivenWords.{AreHad};
ghost use Rattle.market_edge.specs.declared.given_words.NoWords.{NoWords};
ghost use Rattle.market_host.specs.{Programs.EndsProcess, Sights.writing};
ghost use Rattle.market_host.specs.Statuses.{number_of};

use crate::Status;
use crate::host::{course_match, no_memory_for_words};
use market_edge::{Gate, NoWords, Shelf, Sink, Words, words_of};
use std::alloc::Global;
use std::process::ExitCode;
use std::sync::Wait;
use std::thread::Threads;

/// Does what the words ask for, and answers the number of how it went. Where a word is not UTF-8,
/// the call is answered as one without words: status 1, or 6 where the sink is at fault.
pub fn exit_code<R: Threads + Wait + Sync, W: Words, H: Shelf, K: Sink>(
    rt: &R,
    alloc: Global,
    words: &W,
    shelf: &mut H,
    sink: &mut K,
    gate: &(dyn Gate + Sync),
) -> ExitCode
    // The words are had as text; or a word is not UTF-8, where they are told; or memory is said to
    // want for them, of which no cause is said. The process ends with the number of a status that is
    // answered to that.
    ensures { (given : Result (Vec (String Global) Global) NoWords)
        × AreHad (W.tells words.now) given
        × (status : Status) × (exit_status result ≡ number_of status)
        × EndsProcess given H.Shelf shelf.old shelf.new (writing K.Sink sink.old sink.new) status }
{
    let given = words_of(alloc, words);
    let status = answered(rt, alloc, given, shelf, sink, gate);
    ExitCode::from(status.number())
}

/// How it went for these words, or for the reason why they are not had.
pub fn answered<R: Threads + Wait + Sync, H: Shelf, K: Sink>(
    rt: &R,
    alloc: Global,
    words: Result<Vec<String>, NoWords>,
    shelf: &mut H,
    sink: &mut K,
    gate: &(dyn Gate + Sync),
) -> Status
    ensures { EndsProcess words H.Shelf shelf.old shelf.new (writing K.Sink sink.old sink.new)
        result }
{
    match words {
        Ok(words) => course_match(rt, alloc, &words, shelf, sink, gate),
        Err(NoWords::NotText) => course_match(rt, alloc, &[], shelf, sink, gate),
        Err(NoWords::NoMemory) => no_memory_for_words(sink),
    }
}
