// Whom the students of a published text envy.
ghost use Rattle.std.specs.Prelude.{List, ℕ, [], ◌∷◌, IfOk};
ghost use Rattle.session_hall.specs.Streams.{command_lists};
ghost use Rattle.market_host.specs.{Endings.bytes_of, Said.market_said};
ghost use Rattle.market_host.specs.Works.{EndsFor, IsAnswer};
ghost use Rattle.market_words.specs.Inputs.{IsCall, names_in};

use crate::ended::{Ended, told_end};
use crate::inputs::Inputs;
use crate::said::Published;
use crate::trouble::Trouble;
use crate::workers::Workers;
use fairness_audit::published_audit;
use market_edge::{Gate, Passed, Shelf};
use market_units::NoMemory;
use market_words::{Call, Form};
use std::alloc::Global;
use std::sync::Wait;
use std::thread::Threads;

/// The text of an audit of the text which `audit` names, where that is accepted for the market and
/// the sessions that it names, or the first finding on it, or why there is neither.
pub fn audit<R: Threads + Wait + Sync, H: Shelf>(
    rt: &R,
    alloc: Global,
    call: Call,
    workers: u16,
    shelf: &mut H,
    gate: &(dyn Gate + Sync),
) -> Result<Ended, Trouble>
    requires named { (words : List (List ℕ))
        × IsCall words (Form.Audit workers) call }
    ensures { IsAnswer H.Shelf (Form.Audit workers) (names_in call.entry) shelf.old shelf.new
        result }
{
    let mut inputs = Inputs::of(call);
    let published = inputs.published(alloc, shelf)?;
    let workers = Workers { number: workers };
    let ended = audited(rt, alloc, workers, published, gate)?;
    Ok(ended)
}

// How it ends for what the inputs say.
fn audited<R: Threads + Wait + Sync>(
    rt: &R,
    alloc: Global,
    workers: Workers,
    published: Published,
    gate: &(dyn Gate + Sync),
) -> Result<Ended, NoMemory>
    ensures { IfOk result
        (λ ended. EndsFor (Form.Audit workers.number) (market_said published.market)
        (published.text.items ∷ []) (command_lists published.streams.lists.items) ended.status
        (bytes_of ended.output)) }
{
    let Published {
        market,
        text,
        streams,
    } = published;
    let passed = Passed { gate };
    let lent = published_parts::Market {
        catalog: &market.catalog,
        roll: &market.roll,
        settings: &market.settings,
    };
    let told = published_audit(
        rt,
        alloc,
        workers.number,
        &lent,
        &streams.lists,
        text,
        &passed,
    );
    told_end(&market.catalog, &market.roll, told)
}
