// The stages of a market, one after another.
ghost use Rattle.std.specs.Prelude.{◌≡◌, ℕ, Err, IfOk, All, length};
ghost use Rattle.demand_api.specs.Views.{data_of};
ghost use Rattle.market_certificate.specs.Publications.{IsPublication, IsSession};
ghost use Rattle.market_certificate.specs.{Tables.Tables, Views.publication_of};
ghost use Rattle.tabu_search.specs.Search.{FindsNone};
ghost use Rattle.preference_desk.specs.Journals.{sessions_of};
ghost use Rattle.published_parts.specs.{Crowds.IsCrowdIn, Markets.seats_in, Markets.tables_in};
ghost use Rattle.published_parts.specs.Views.{market_in};
ghost use Rattle.published_market.specs.Publishing.{HasNoPrices, IsOutcome, IsPublicationOf, lengths_of};
ghost use Rattle.published_market.specs.Stages.{AreStages, stages_of};

use crate::bundles::prove_bundles;
use crate::order::order_of;
use crate::seats::used_seats;
use crate::turns::prove_turns;
use crate::writers::Writers;
use aftermarket_stage::{After, aftermarket};
use demand_api::{Crowd, Demands};
use market_certificate::Publication;
use market_units::NoMemory;
use oversubscription_stage::{Settled, settle};
use preference_desk::Entry;
use published_parts::Market;
use std::alloc::Global;
use std::sync::Wait;
use std::thread::Threads;
use tabu_search::{Found, SearchEnd, search};

/// What a market publishes, and how long its stages went on.
#[derive(Drop)]
pub struct Published {
    /// What is published.
    pub publication: Publication,
    /// The turns that the search made.
    pub turns: u32,
    /// The rounds in which the elimination raised a price.
    pub rounds: u32,
    /// The passes of the aftermarket, of which the last changed nothing; 0 without students.
    pub passes: u64,
}

/// Why nothing is published.
#[derive(Clone, Copy, Debug, PartialEq, Eq)]
pub enum PublishEnd {
    /// The search finds no prices: the least clearing error exceeds what the settings accept.
    NoPrices {
        /// That least error.
        least: u64,
    },
    /// Memory was wanted and not given.
    NoMemory,
}

impl From<NoMemory> for PublishEnd {
    ghost use Rattle.std.specs.Prelude.{◌≡◌};
    ghost use Rattle.published_market.specs.declared.publishing.PublishEnd.TheVariants.{NoMemory};

    ghost from_gives = { λ _ end. end ≡ NoMemory };

    fn from(_: NoMemory) -> Self {
        PublishEnd::NoMemory
    }
}

// The three stages of a market.
#[derive(Drop)]
struct Stages {
    found: Found,
    settled: Settled,
    after: After,
}

/// Holds the market after a journal, and gives what it publishes: the budgets; the prices that the
/// search finds; the prices at which the elimination ends, with each student's best bundle at them;
/// the turns of the aftermarket; and what is held at the end. Each bundle has its tree. Neither how
/// many write the trees nor the size of their rooms changes anything that is published. The crowd
/// is that of the market after the journal, and is the one whose demands are asked. `NoPrices`
/// comes exactly where the search's least error exceeds what the settings accept.
pub fn publish<R: Threads + Wait + Sync, D: Demands>(
    rt: &R,
    alloc: Global,
    writers: Writers,
    market: &Market,
    journal: &[Entry],
    crowd: &Crowd,
    demands: &mut D,
) -> Result<Published, PublishEnd>
    requires sessions { All (λ entry. IsSession entry.session) journal.now }
    requires is_crowd { IsCrowdIn (market_in market.now) journal.now (data_of crowd.now) }
    requires asked { D.crowd demands.old ≡ data_of crowd.now }
    ensures crowd { D.crowd demands.new ≡ D.crowd demands.old }
    ensures published { IfOk result
        (λ published. IsPublicationOf (market_in market.now) journal.now
        (lengths_of published.turns published.rounds published.passes)
        (publication_of published.publication)) }
    ensures in_range { IfOk result
        (λ published. IsPublication (tables_in (market_in market.now))
        (publication_of published.publication)) }
    ensures no_prices { (least : ℕ) → result ≡ Err (PublishEnd.NoPrices least)
        → HasNoPrices (market_in market.now) journal.now least }
{
    let seats = market.catalog.all_seats();
    let stages = hold_stages(rt, alloc, seats, market, crowd, demands)?;
    Ok(put_together(rt, alloc, writers, market, journal, crowd, stages)?)
}

// Holds the three stages, one after another.
fn hold_stages<R: Threads + Wait + Sync, D: Demands>(
    rt: &R,
    alloc: Global,
    seats: &[u16],
    market: &Market,
    crowd: &Crowd,
    demands: &mut D,
) -> Result<Stages, PublishEnd>
    requires seats { length seats.now ≡ crowd.now.sections }
    requires asked { D.crowd demands.old ≡ data_of crowd.now }
    ensures crowd { D.crowd demands.new ≡ D.crowd demands.old }
    ensures stages { IfOk result
        (λ stages. AreStages (data_of crowd.now) seats.now market.now.settings.now
        (stages_of stages)) }
    ensures no_prices { (least : ℕ) → result ≡ Err (PublishEnd.NoPrices least)
        → FindsNone (data_of crowd.now) seats.now market.now.settings.now least }
{
    let found = match search(rt, alloc, demands, seats, market.settings) {
        Ok(found) => found,
        Err(SearchEnd::NoPrices { least }) => return Err(PublishEnd::NoPrices { least }),
        Err(SearchEnd::NoMemory) => return Err(PublishEnd::NoMemory),
    };
    let settled = settle(rt, alloc, demands, seats, &found.prices)?;
    let after = aftermarket(
        alloc,
        crowd,
        seats,
        &settled.prices,
        &settled.bundles,
        market.settings.raise,
    )?;
    Ok(Stages {
        found,
        settled,
        after,
    })
}

// The publication of these stages.
fn put_together<R: Threads + Sync>(
    rt: &R,
    alloc: Global,
    writers: Writers,
    market: &Market,
    journal: &[Entry],
    crowd: &Crowd,
    stages: Stages,
) -> Result<Published, NoMemory>
    requires sessions { All (λ entry. IsSession entry.session) journal.now }
    requires sections { length market.now.catalog.now.sections ≡ crowd.now.sections }
    requires stages { AreStages (data_of crowd.now) (seats_in (market_in market.now))
        market.now.settings.now (stages_of stages) }
    ensures order { IfOk result
        (λ published. published.publication.order.items ≡ sessions_of journal.now) }
    ensures outcome { IfOk result
        (λ published. IsOutcome (data_of crowd.now) (seats_in (market_in market.now))
        market.now.settings.now (lengths_of published.turns published.rounds published.passes)
        (publication_of published.publication)) }
    ensures in_range { IfOk result
        (λ published. (tables : Tables)
        → length tables.students ≡ length crowd.now.menus.items
        → length tables.sections ≡ crowd.now.sections
        → IsPublication tables (publication_of published.publication)) }
{
    let _few_sections = market.catalog.len();
    let seats = market.catalog.all_seats();
    let Stages {
        found,
        settled,
        after,
    } = stages;
    let order = order_of(alloc, journal)?;
    let budgets = crowd.budgets.to_vec(alloc)?;
    let prices = &settled.prices;
    let bundles = prove_bundles(rt, alloc, writers, crowd, prices, &settled.bundles)?;
    let raise = market.settings.raise;
    let turns = prove_turns(rt, alloc, writers, crowd, prices, raise, &after.turns)?;
    let used = used_seats(alloc, &after.used, seats)?;
    Ok(Published {
        publication: Publication {
            order,
            budgets,
            start: found.prices,
            error: found.error,
            prices: settled.prices,
            bundles,
            turns,
            allocation: after.bundles,
            used,
        },
        turns: found.turns,
        rounds: settled.rounds,
        passes: after.passes,
    })
}
