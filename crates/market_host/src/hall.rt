// Drop and add after publication.
ghost use Rattle.std.specs.Prelude.{◌≤◌, List, ℕ, IfOk, length};
ghost use Rattle.dropadd_hall.specs.Streams.{request_lists};
ghost use Rattle.market_host.specs.Endings.{bytes_of};
ghost use Rattle.market_host.specs.Works.{HallEndsFor, IsAnswer};
ghost use Rattle.market_words.specs.Inputs.{IsCall, names_in};

use crate::ended::{Ended, told_end};
use crate::inputs::Inputs;
use crate::said::{Streams, Tables};
use crate::trouble::Trouble;
use dropadd_desk::HallCommand;
use dropadd_hall::published_hall;
use market_edge::{Gate, Passed, Shelf};
use market_units::{MAX_TEXT_BYTES, NoMemory};
use market_words::{Call, Form};
use std::alloc::Global;
use std::sync::Wait;
use std::thread::Threads;

/// The text of the hall that opens with the published text which `hall` names, or the first
/// finding, where none opens with it, or why there is neither.
pub fn hall<R: Threads + Wait + Sync, H: Shelf>(
    rt: &R,
    alloc: Global,
    call: Call,
    shelf: &mut H,
    gate: &(dyn Gate + Sync),
) -> Result<Ended, Trouble>
    requires named { (words : List (List ℕ))
        × IsCall words Form.Hall call }
    ensures { IsAnswer H.Shelf Form.Hall (names_in call.entry) shelf.old shelf.new result }
{
    let mut inputs = Inputs::of(call);
    let tables = inputs.tables(alloc, shelf)?;
    let text = inputs.text(alloc, shelf)?;
    let streams = inputs.rest(alloc, shelf)?;
    let ended = opened(rt, alloc, &tables, &text, &streams, gate)?;
    Ok(ended)
}

// How it ends for what the inputs say.
fn opened<R: Threads + Wait + Sync>(
    rt: &R,
    alloc: Global,
    tables: &Tables,
    text: &[u8],
    streams: &Streams<HallCommand>,
    gate: &(dyn Gate + Sync),
) -> Result<Ended, NoMemory>
    requires short { length text.now ≤ MAX_TEXT_BYTES }
    ensures { IfOk result
        (λ ended. HallEndsFor tables.now.catalog tables.now.roll text.now
        (request_lists streams.now.lists.items) ended.status (bytes_of ended.output)) }
{
    let passed = Passed { gate };
    let told = published_hall(
        rt,
        alloc,
        &tables.catalog,
        &tables.roll,
        text,
        &streams.lists,
        &passed,
    );
    told_end(&tables.catalog, &tables.roll, told)
}
