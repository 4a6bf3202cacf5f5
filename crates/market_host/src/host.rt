// From the words to the status, and from the inputs to the output.
ghost use Rattle.std.specs.Prelude.{◌≡◌, ◌≢◌, ◌≤◌, List, ℕ, map};
ghost use Rattle.std.specs.String.{string_bytes};
ghost use Rattle.market_edge.specs.{Faults.Rose, Sinks.Takes, Sinks.TakesFront};
ghost use Rattle.market_words.specs.Inputs.{IsCall, names_in};
ghost use Rattle.market_host.specs.Answers.{IsAnswered, IsWordless};
ghost use Rattle.market_host.specs.{Sights.sight, Sights.writing, Traces.trace, Works.IsAnswer};

use crate::Status;
use crate::audit::audit;
use crate::check::check;
use crate::demand::demand;
use crate::ended::Ended;
use crate::explain::explain;
use crate::hall::hall;
use crate::line::{line_for, usage};
use crate::make::{MakeNumbers, make};
use crate::prefer::prefer;
use crate::quote::quote;
use crate::run::run;
use crate::trouble::Trouble;
use market_edge::{Gate, Shelf, Sink, SinkFault, write_whole};
use market_words::{Call, Form, read_words};
use std::alloc::Global;
use std::sync::Wait;
use std::thread::Threads;

/// Does what the words of the command line ask for, and answers how it went. The words are those
/// behind the program's name. The whole text is made before its first byte is written; a text that
/// the sink does not take whole is a sink fault, in place of whatever status was to be answered.
pub fn course_match<R: Threads + Wait + Sync, H: Shelf, K: Sink>(
    rt: &R,
    alloc: Global,
    words: &[String],
    shelf: &mut H,
    sink: &mut K,
    gate: &(dyn Gate + Sync),
) -> Status
    // The status is that of the outcome, and the sink took its text; or it is that of a sink fault,
    // which stands for one.
    ensures answered { IsAnswered (map string_bytes words.now) (sight H.Shelf shelf.old shelf.new)
        (trace H.Shelf shelf.old shelf.new) (writing K.Sink sink.old sink.new) result }

    // What the shelf holds stays, and no count of faults falls.
    ensures holds { (H.shows shelf.new).holds ≡ (H.shows shelf.old).holds }
    ensures later { (other : List ℕ)
        → (H.shows shelf.old).faults other ≤ (H.shows shelf.new).faults other }
    ensures sink_later { (K.shows sink.old).faults ≤ (K.shows sink.new).faults }
{
    let Some(call) = read_words(words) else {
        return finish(sink, usage().as_bytes(), Status::Usage);
    };
    match answer(rt, alloc, call, shelf, gate) {
        Ok(ended) => finish(sink, ended.output.as_bytes(), ended.status),
        Err(trouble) => finish(sink, line_for(trouble).as_bytes(), trouble.status()),
    }
}

/// What is answered where there is no memory for the words themselves: that memory is wanted,
/// unless the sink fails.
pub fn no_memory_for_words<K: Sink>(sink: &mut K) -> Status
    ensures { IsWordless (writing K.Sink sink.old sink.new) result }
{
    finish(
        sink,
        line_for(Trouble::OutOfMemory).as_bytes(),
        Status::OutOfMemory,
    )
}

// Writes the text of a status, and answers the status where the sink takes it whole.
fn finish<K: Sink>(sink: &mut K, text: &[u8], status: Status) -> Status
    requires { status ≢ Status.SinkFault }
    ensures status { result ≢ Status.SinkFault → result ≡ status }
    ensures written { result ≢ Status.SinkFault
        → Takes (K.shows sink.old).taken (K.shows sink.new).taken text.now }
    ensures cause { result ≡ Status.SinkFault
        → Rose (K.shows sink.old).faults (K.shows sink.new).faults }
    ensures front { result ≡ Status.SinkFault
        → TakesFront (K.shows sink.old).taken (K.shows sink.new).taken text.now }
    ensures uncounted { result ≢ Status.SinkFault
        → (K.shows sink.new).faults ≡ (K.shows sink.old).faults }
    ensures later { (K.shows sink.old).faults ≤ (K.shows sink.new).faults }
{
    match write_whole(sink, text) {
        Ok(()) => status,
        Err(SinkFault) => Status::SinkFault,
    }
}

// How the call ends, or what stops it.
fn answer<R: Threads + Wait + Sync, H: Shelf>(
    rt: &R,
    alloc: Global,
    call: Call,
    shelf: &mut H,
    gate: &(dyn Gate + Sync),
) -> Result<Ended, Trouble>
    requires { (words : List (List ℕ)) × IsCall words call.form call }
    ensures { IsAnswer H.Shelf call.entry.form (names_in call.entry) shelf.old shelf.new result }
{
    match call.form {
        Form::Quote {
            name,
            credits,
            courses,
        } => quote(alloc, call, shelf, name, credits, courses),
        Form::Check => check(alloc, call, shelf),
        Form::Explain { student, section } => explain(alloc, call, shelf, student, section),
        Form::Hall => hall(rt, alloc, call, shelf, gate),
        Form::Audit { workers } => audit(rt, alloc, call, workers, shelf, gate),
        Form::Prefer => prefer(rt, alloc, call, shelf, gate),
        Form::Demand { workers } => demand(rt, alloc, call, workers, shelf, gate),
        Form::Run { workers } => run(rt, alloc, call, workers, shelf, gate),
        Form::Make {
            workers,
            seed,
            students,
            sections,
            accept,
        } => {
            let numbers = MakeNumbers {
                seed,
                students,
                sections,
                accept,
            };
            Ok(make(rt, alloc, workers, numbers, gate)?)
        }
    }
}
