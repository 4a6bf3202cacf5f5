// The texts of a market that was run.
ghost use Rattle.std.specs.Prelude.{◌≡◌, ◌≤◌, ℕ, Err, IfOk};
ghost use Rattle.demand_api.specs.Crowds.{CrowdData};
ghost use Rattle.market_certificate.specs.Publications.{IsPublication, Publication};
ghost use Rattle.market_certificate.specs.Texts.{text_of};
ghost use Rattle.market_run.specs.{Summaries.summary_text, Views.journal_heard, Views.market_heard};
ghost use Rattle.published_parts.specs.{Crowds.IsCrowdIn, Markets.tables_in};
ghost use Rattle.published_market.specs.Publishing.{HasNoPrices, IsPublicationOf, Lengths};

use crate::market_desk::MarketDesk;
use crate::running::run;
use crate::summary_text;
use market_certificate::put_publication;
use market_edge::Gate;
use market_units::MAX_WORKERS;
use published_market::PublishEnd;
use std::alloc::Global;
use std::sync::Wait;
use std::thread::Threads;

/// The published text of the market after the desk's journal, found by 1 to 16 workers; `NoPrices`
/// comes exactly where the search's least error exceeds what the settings accept. The number of
/// workers changes no byte.
pub fn published_text<R: Threads + Wait + Sync>(
    rt: &R,
    alloc: Global,
    workers: u16,
    heard: &MarketDesk,
    gate: &(dyn Gate + Sync),
) -> Result<Vec<u8>, PublishEnd>
    requires { (1 ≤ workers) × (workers ≤ MAX_WORKERS) }
    ensures text { IfOk result
        (λ text. (lengths : Lengths) × (p : Publication)
        × IsPublicationOf (market_heard heard.now) (journal_heard heard.now) lengths p
        × IsPublication (tables_in (market_heard heard.now)) p
        × (text.items ≡ text_of (tables_in (market_heard heard.now)) p)) }
    ensures no_prices { (least : ℕ) → result ≡ Err (PublishEnd.NoPrices least)
        → HasNoPrices (market_heard heard.now) (journal_heard heard.now) least }
{
    let ran = run(rt, alloc, workers, heard, gate)?;
    let market = &heard.market;
    Ok(put_publication(
        alloc,
        market.catalog,
        market.roll,
        &ran.published.publication,
    )?)
}

/// The summary of the market after the desk's journal, run by 1 to 16 workers; `NoPrices` comes
/// exactly where the search's least error exceeds what the settings accept.
pub fn made_summary<R: Threads + Wait + Sync>(
    rt: &R,
    alloc: Global,
    workers: u16,
    heard: &MarketDesk,
    gate: &(dyn Gate + Sync),
) -> Result<Vec<u8>, PublishEnd>
    requires { (1 ≤ workers) × (workers ≤ MAX_WORKERS) }
    ensures text { IfOk result
        (λ text. (crowd : CrowdData) × (lengths : Lengths) × (p : Publication)
        × IsCrowdIn (market_heard heard.now) (journal_heard heard.now) crowd
        × IsPublicationOf (market_heard heard.now) (journal_heard heard.now) lengths p
        × (text.items ≡ summary_text crowd lengths p)) }
    ensures no_prices { (least : ℕ) → result ≡ Err (PublishEnd.NoPrices least)
        → HasNoPrices (market_heard heard.now) (journal_heard heard.now) least }
{
    let ran = run(rt, alloc, workers, heard, gate)?;
    Ok(summary_text(alloc, &ran.crowd, &ran.published)?)
}
