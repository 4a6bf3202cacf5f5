// What the students take at given prices.
ghost use Rattle.std.specs.Prelude.{◌≡◌, List, ℕ, length, IfOk};
ghost use Rattle.demand_api.specs.Views.{data_of};
ghost use Rattle.demand_text.specs.Taken.{IsTakenBy, taken_at};
ghost use Rattle.market_host.specs.{Demands.TellsDemand, Said.market_said};
ghost use Rattle.market_host.specs.Works.{IsAnswer};
ghost use Rattle.market_words.specs.Inputs.{IsCall, names_in};
ghost use Rattle.session_hall.specs.Streams.{command_lists};

use crate::Status;
use crate::ended::{Ended, Output};
use crate::inputs::Inputs;
use crate::said::{Market, Streams};
use crate::trouble::Trouble;
use crate::workers::Workers;
use demand_api::Crowd;
use demand_text::{Taken, demand_text};
use demand_workers::{Pool, PooledDemands};
use market_crowd::make_crowd;
use market_edge::{Gate, Passed, Shelf};
use market_units::{NoMemory, Tokens};
use market_words::{Call, Form};
use session_hall::hold;
use std::alloc::Global;
use std::sync::{Arc, Wait};
use std::thread::Threads;
use utility_language::Command;

/// The text of `demand`, or why there is none.
pub fn demand<R: Threads + Wait + Sync, H: Shelf>(
    rt: &R,
    alloc: Global,
    call: Call,
    workers: u16,
    shelf: &mut H,
    gate: &(dyn Gate + Sync),
) -> Result<Ended, Trouble>
    requires named { (words : List (List ℕ))
        × IsCall words (Form.Demand workers) call }
    ensures { IsAnswer H.Shelf (Form.Demand workers) (names_in call.entry) shelf.old shelf.new
        result }
{
    let mut inputs = Inputs::of(call);
    let market = inputs.market(alloc, shelf)?;
    let prices = inputs.prices(alloc, shelf, &market.catalog)?;
    let streams = inputs.rest(alloc, shelf)?;
    let workers = Workers { number: workers };
    let text = text_of(rt, alloc, workers, &market, &prices, &streams, gate)?;
    Ok(Ended {
        status: Status::Done,
        output: Output::Text(text),
    })
}

// The text of the order in which a desk for this market takes these streams, and of what its crowd
// then takes at these prices.
fn text_of<R: Threads + Wait + Sync>(
    rt: &R,
    alloc: Global,
    workers: Workers,
    market: &Market,
    prices: &[Tokens],
    streams: &Streams<Command>,
    gate: &(dyn Gate + Sync),
) -> Result<Vec<u8>, NoMemory>
    requires prices { length prices.now ≡ length market.now.catalog.sections }
    ensures { IfOk result
        (λ text. TellsDemand (market_said market.now) (command_lists streams.now.lists.items)
        prices.now text.items) }
{
    let passed = Passed { gate };
    let closed = hold(
        rt,
        alloc,
        &market.catalog,
        &market.roll,
        &streams.lists,
        &passed,
    )?;
    let crowd = make_crowd(
        alloc,
        &market.catalog,
        &market.roll,
        closed.desk.closed(),
        market.settings.seed,
        market.settings.spread,
    )?;
    let seats = market.catalog.all_seats();
    let taken = taken_by(rt, alloc, workers, crowd, seats, prices, gate)?;
    demand_text(
        alloc,
        &market.catalog,
        &market.roll,
        closed.desk.journal(),
        &taken,
    )
}

// What workers find that a crowd takes where its sections have these seats and these prices.
fn taken_by<R: Threads + Wait + Sync>(
    rt: &R,
    alloc: Global,
    workers: Workers,
    crowd: Crowd,
    seats: &[u16],
    prices: &[Tokens],
    gate: &(dyn Gate + Sync),
) -> Result<Taken, NoMemory>
    requires seats { length seats.now ≡ crowd.sections }
    requires prices { length prices.now ≡ crowd.sections }
    ensures value { IfOk result (λ taken. taken ≡ taken_at (data_of crowd) seats.now prices.now) }
    ensures by { IfOk result
        (λ taken. IsTakenBy (length (data_of crowd).students) crowd.sections taken) }
{
    let crowd = Arc::new(alloc, crowd)?;
    let pool = Pool::reserve(alloc, workers.number)?;
    let mut demands = PooledDemands::make(pool, crowd, gate);
    Taken::at(rt, alloc, &mut demands, seats, prices)
}
