// A market that workers run.
ghost use Rattle.std.specs.Prelude.{◌≡◌, ◌≤◌, ℕ, Err, IfOk};
ghost use Rattle.std.specs.Arc.{arc_value};
ghost use Rattle.demand_api.specs.Views.{data_of};
ghost use Rattle.market_certificate.specs.{Publications.IsPublication, Views.publication_of};
ghost use Rattle.market_run.specs.Views.{journal_heard, market_heard};
ghost use Rattle.published_parts.specs.{Crowds.IsCrowdIn, Markets.tables_in};
ghost use Rattle.published_market.specs.Publishing.{HasNoPrices, IsPublicationOf, lengths_of};

use crate::market_desk::MarketDesk;
use demand_api::Crowd;
use demand_workers::{Pool, PooledDemands};
use market_edge::Gate;
use market_units::{MAX_WORKERS, NoMemory};
use published_market::{PublishEnd, Published, Writers, crowd_after, publish};
use std::alloc::Global;
use std::sync::{Arc, Wait};
use std::thread::Threads;

// What was published, and the crowd that was asked.
#[derive(Drop)]
pub(crate) struct Ran {
    pub crowd: Arc<Crowd>,
    pub published: Published,
}

// A crowd, twice shared: to be told of, and to be asked for its demands.
#[derive(Drop)]
struct Shared {
    crowd: Arc<Crowd>,
    asked: Arc<Crowd>,
}

// The crowd after the desk's journal, twice shared.
fn share(alloc: Global, heard: &MarketDesk) -> Result<Shared, NoMemory>
    ensures same { IfOk result (λ shared. arc_value shared.asked ≡ arc_value shared.crowd) }
    ensures crowd { IfOk result
        (λ shared. IsCrowdIn (market_heard heard.now) (journal_heard heard.now)
        (data_of (arc_value shared.crowd))) }
{
    let crowd = crowd_after(alloc, &heard.market, heard.desk)?;
    let crowd = Arc::new(alloc, crowd)?;
    let asked = crowd.clone()?;
    Ok(Shared { crowd, asked })
}

/// Runs the market with the preferences that the desk's journal leaves: what is published, and the
/// crowd. So many workers, 1 to 16, answer what is demanded; one that draws from a board passes the
/// gate before its first draw and after each of its posts. `NoPrices`, with the least error, where
/// the search found no prices of an accepted error; else the only error is that memory was not
/// given.
pub(crate) fn run<R: Threads + Wait + Sync>(
    rt: &R,
    alloc: Global,
    workers: u16,
    heard: &MarketDesk,
    gate: &(dyn Gate + Sync),
) -> Result<Ran, PublishEnd>
    requires { (1 ≤ workers) × (workers ≤ MAX_WORKERS) }
    ensures crowd { IfOk result
        (λ ran. IsCrowdIn (market_heard heard.now) (journal_heard heard.now)
        (data_of (arc_value ran.crowd))) }
    ensures published { IfOk result
        (λ ran. IsPublicationOf (market_heard heard.now) (journal_heard heard.now)
        (lengths_of ran.published.turns ran.published.rounds ran.published.passes)
        (publication_of ran.published.publication)) }
    ensures in_range { IfOk result
        (λ ran. IsPublication (tables_in (market_heard heard.now))
        (publication_of ran.published.publication)) }
    ensures no_prices { (least : ℕ) → result ≡ Err (PublishEnd.NoPrices least)
        → HasNoPrices (market_heard heard.now) (journal_heard heard.now) least }
{
    let Shared { crowd, asked } = share(alloc, heard)?;
    let pool = Pool::reserve(alloc, workers)?;
    let mut demands = PooledDemands::make(pool, asked, gate);
    let published = publish(
        rt,
        alloc,
        Writers::of(workers),
        &heard.market,
        heard.desk.journal(),
        &crowd,
        &mut demands,
    )?;
    Ok(Ran { crowd, published })
}
