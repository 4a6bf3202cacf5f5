// What a market publishes.
ghost use Rattle.std.specs.Prelude.{◌≡◌, ◌++◌, List, ℕ, [], IfOk};
ghost use Rattle.market_host.specs.{Endings.bytes_of, Lines.no_prices_line, Said.market_said};
ghost use Rattle.market_host.specs.Works.{EndsFor, IsAnswer};
ghost use Rattle.market_words.specs.Inputs.{IsCall, names_in};
ghost use Rattle.session_hall.specs.Streams.{command_lists};

use crate::Status;
use crate::ended::{Ended, Output};
use crate::inputs::Inputs;
use crate::line::no_prices;
use crate::said::{Market, Streams};
use crate::trouble::Trouble;
use crate::workers::Workers;
use market_edge::{Gate, Shelf};
use market_run::{HeldEnd, held_text};
use market_units::NoMemory;
use market_words::{Call, Form};
use std::alloc::Global;
use std::sync::Wait;
use std::thread::Threads;
use utility_language::Command;

/// The published text of the market that `run` names, or the order in which its sessions' commands
/// were taken and the least error where no prices are found, or why there is neither.
pub fn run<R: Threads + Wait + Sync, H: Shelf>(
    rt: &R,
    alloc: Global,
    call: Call,
    workers: u16,
    shelf: &mut H,
    gate: &(dyn Gate + Sync),
) -> Result<Ended, Trouble>
    requires named { (words : List (List ℕ))
        × IsCall words (Form.Run workers) call }
    ensures { IsAnswer H.Shelf (Form.Run workers) (names_in call.entry) shelf.old shelf.new
        result }
{
    let mut inputs = Inputs::of(call);
    let market = inputs.market(alloc, shelf)?;
    let streams = inputs.rest(alloc, shelf)?;
    let workers = Workers { number: workers };
    let ended = held(rt, alloc, workers, &market, &streams, gate)?;
    Ok(ended)
}

// How it ends for what the inputs say.
fn held<R: Threads + Wait + Sync>(
    rt: &R,
    alloc: Global,
    workers: Workers,
    market: &Market,
    streams: &Streams<Command>,
    gate: &(dyn Gate + Sync),
) -> Result<Ended, NoMemory>
    ensures { IfOk result
        (λ ended. EndsFor (Form.Run workers.number) (market_said market.now) []
        (command_lists streams.now.lists.items) ended.status (bytes_of ended.output)) }
{
    let lent = published_parts::Market {
        catalog: &market.catalog,
        roll: &market.roll,
        settings: &market.settings,
    };
    match held_text(rt, alloc, workers.number, &lent, &streams.lists, gate) {
        Ok(text) => Ok(Ended {
            status: Status::Done,
            output: Output::Text(text),
        }),
        Err(HeldEnd::NoPrices { order, least }) => Ok(Ended {
            status: Status::NoPrices { least },
            output: Output::Text(unpriced_text(order, least)?),
        }),
        Err(HeldEnd::NoMemory) => Err(NoMemory),
    }
}

// The line of an order, and behind it the line of the least error.
fn unpriced_text(order: Vec<u8>, least: u64) -> Result<Vec<u8>, NoMemory>
    ensures { IfOk result (λ text. text.items ≡ order.items ++ no_prices_line least) }
{
    let mut text = order;
    text.extend_from_slice(no_prices(least).as_bytes())?;
    Ok(text)
}
