// A market whose sessions say their streams at a desk, and that is run after the desk is closed.
ghost use Rattle.std.specs.Prelude.{◌≡◌, ◌≤◌, ◌++◌, ℕ, List, [], ◌∷◌, Err, IfOk, Vec, length};
ghost use Rattle.std.proofs.Common.{Global};
ghost use Rattle.market_certificate.specs.Texts.{order_line};
ghost use Rattle.market_run.specs.Held.{IsSummaryText};
ghost use Rattle.preference_desk.specs.{DeskView.entries_of, Journals.sessions_of};
ghost use Rattle.published_market.specs.Publishing.{IsPublishedText, IsUnpriced};
ghost use Rattle.published_parts.specs.Views.{market_in};
ghost use Rattle.session_hall.specs.Streams.{command_count, command_lists};

use crate::market_desk::MarketDesk;
use crate::texts::{made_summary, published_text};
use demand_text::put_order;
use market_edge::{Gate, Passed};
use market_units::{MAX_COMMANDS, MAX_SESSIONS, MAX_WORKERS, NoMemory};
use preference_desk::Desk;
use published_market::PublishEnd;
use published_parts::Market;
use session_hall::hold;
use std::alloc::Global;
use std::sync::Wait;
use std::thread::Threads;
use utility_language::Command;

/// Why a market that was held has no text.
#[derive(Drop)]
pub enum HeldEnd {
    /// The search finds no prices: the least clearing error exceeds what the settings accept.
    NoPrices {
        /// The line of the order in which the desk took the commands.
        order: Vec<u8>,
        /// That least error.
        least: u64,
    },
    /// Memory was wanted and not given.
    NoMemory,
}

impl From<NoMemory> for HeldEnd {
    ghost use Rattle.std.specs.Prelude.{◌≡◌};
    ghost use Rattle.market_run.specs.declared.held.HeldEnd.TheVariants.{NoMemory};

    ghost from_gives = { λ _ end. end ≡ NoMemory };

    fn from(_: NoMemory) -> Self {
        HeldEnd::NoMemory
    }
}

// The line of the order in which the desk took its commands.
fn order_text(alloc: Global, desk: &Desk) -> Result<Vec<u8>, NoMemory>
    ensures { IfOk result
        (λ text. text.items ≡ order_line (sessions_of (entries_of desk.now)) ++ 10 ∷ []) }
{
    let mut text = Vec::new(alloc);
    put_order(&mut text, desk.journal())?;
    Ok(text)
}

/// The published text of the market whose sessions say these streams: in some order the desk takes
/// their commands, and this is what is published in that order. `NoPrices` comes exactly where the
/// search's least error exceeds what the settings accept. Each session says its stream from a
/// thread of its own, and 1 to 16 workers answer what is demanded.
pub fn held_text<R: Threads + Wait + Sync>(
    rt: &R,
    alloc: Global,
    workers: u16,
    market: &Market,
    streams: &[Vec<Command>],
    gate: &(dyn Gate + Sync),
) -> Result<Vec<u8>, HeldEnd>
    requires workers { (1 ≤ workers) × (workers ≤ MAX_WORKERS) }
    requires sessions { (1 ≤ length streams.now) × (length streams.now ≤ MAX_SESSIONS) }
    requires commands { command_count streams.now ≤ MAX_COMMANDS }
    ensures text { IfOk result
        (λ text. (order : List ℕ)
        × IsPublishedText (market_in market.now) (command_lists streams.now) order text.items) }
    ensures no_prices { (line : Vec ℕ Global) → (least : ℕ)
        → result ≡ Err (HeldEnd.NoPrices line least)
        → (order : List ℕ)
        × IsUnpriced (market_in market.now) (command_lists streams.now) order least
        × (line.items ≡ order_line order ++ 10 ∷ []) }
{
    let passed = Passed { gate };
    let closed = hold(rt, alloc, market.catalog, market.roll, streams, &passed)?;
    let heard = MarketDesk {
        market: *market,
        desk: &closed.desk,
    };
    match published_text(rt, alloc, workers, &heard, gate) {
        Ok(text) => Ok(text),
        Err(PublishEnd::NoPrices { least }) => {
            let order = order_text(alloc, &closed.desk)?;
            Err(HeldEnd::NoPrices { order, least })
        }
        Err(PublishEnd::NoMemory) => Err(HeldEnd::NoMemory),
    }
}

/// The summary of the market whose sessions say these streams, run by 1 to 16 workers; `NoPrices`
/// comes exactly where the search's least error exceeds what the settings accept.
pub fn held_summary<R: Threads + Wait + Sync>(
    rt: &R,
    alloc: Global,
    workers: u16,
    market: &Market,
    streams: &[Vec<Command>],
    gate: &(dyn Gate + Sync),
) -> Result<Vec<u8>, PublishEnd>
    requires workers { (1 ≤ workers) × (workers ≤ MAX_WORKERS) }
    requires sessions { (1 ≤ length streams.now) × (length streams.now ≤ MAX_SESSIONS) }
    requires commands { command_count streams.now ≤ MAX_COMMANDS }
    ensures text { IfOk result
        (λ text. (order : List ℕ)
        × IsSummaryText (market_in market.now) (command_lists streams.now) order text.items) }
    ensures no_prices { (least : ℕ) → result ≡ Err (PublishEnd.NoPrices least)
        → (order : List ℕ)
        × IsUnpriced (market_in market.now) (command_lists streams.now) order least }
{
    let passed = Passed { gate };
    let closed = hold(rt, alloc, market.catalog, market.roll, streams, &passed)?;
    let heard = MarketDesk {
        market: *market,
        desk: &closed.desk,
    };
    made_summary(rt, alloc, workers, &heard, gate)
}
