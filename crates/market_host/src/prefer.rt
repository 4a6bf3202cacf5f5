// The journal of the sessions, and the preferences that it closes with.
ghost use Rattle.std.specs.Prelude.{List, ℕ, IfOk};
ghost use Rattle.market_host.specs.{Preferences.TellsPreferences, Sessions.AreStreams};
ghost use Rattle.market_host.specs.Works.{IsAnswer};
ghost use Rattle.market_words.specs.Inputs.{IsCall, names_in};
ghost use Rattle.session_hall.specs.Streams.{command_lists};

use crate::Status;
use crate::ended::{Ended, Output};
use crate::inputs::Inputs;
use crate::said::Streams;
use crate::trouble::Trouble;
use course_catalog::Catalog;
use market_edge::{Gate, Passed, Shelf};
use market_units::NoMemory;
use market_words::{Call, Form};
use preference_text::preferences_text;
use session_hall::hold;
use std::alloc::Global;
use std::sync::Wait;
use std::thread::Threads;
use student_roll::Roll;
use utility_language::Command;

/// The text of `prefer`, or why there is none.
pub fn prefer<R: Threads + Wait + Sync, H: Shelf>(
    rt: &R,
    alloc: Global,
    call: Call,
    shelf: &mut H,
    gate: &(dyn Gate + Sync),
) -> Result<Ended, Trouble>
    requires named { (words : List (List ℕ))
        × IsCall words Form.Prefer call }
    ensures { IsAnswer H.Shelf Form.Prefer (names_in call.entry) shelf.old shelf.new result }
{
    let mut inputs = Inputs::of(call);
    let tables = inputs.tables(alloc, shelf)?;
    let streams = inputs.rest(alloc, shelf)?;
    let text = text_of(rt, alloc, &tables.catalog, &tables.roll, &streams, gate)?;
    Ok(Ended {
        status: Status::Done,
        output: Output::Text(text),
    })
}

// The text of the journal that a desk for this catalogue and this roll keeps of these streams.
fn text_of<R: Threads + Wait + Sync>(
    rt: &R,
    alloc: Global,
    catalog: &Catalog,
    roll: &Roll,
    streams: &Streams<Command>,
    gate: &(dyn Gate + Sync),
) -> Result<Vec<u8>, NoMemory>
    requires said { (sessions : List (List ℕ))
        × AreStreams sessions (command_lists streams.now.lists.items) }
    ensures { IfOk result
        (λ text. TellsPreferences catalog.now roll.now (command_lists streams.now.lists.items)
        text.items) }
{
    let passed = Passed { gate };
    let closed = hold(rt, alloc, catalog, roll, &streams.lists, &passed)?;
    preferences_text(alloc, catalog, roll, &closed.desk)
}
