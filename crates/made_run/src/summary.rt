// The summary of a made market.
ghost use Rattle.std.specs.Prelude.{◌≡◌, ◌≤◌, ℕ, Err, IfOk};
ghost use Rattle.made_run.specs.Made.{IsMadeSummary, IsMadeUnpriced};

use crate::{Numbers, make_market};
use market_edge::Gate;
use market_run::held_summary;
use market_units::MAX_WORKERS;
use published_market::PublishEnd;
use published_parts::Market;
use std::alloc::Global;
use std::sync::Wait;
use std::thread::Threads;

/// The summary of the market of these numbers, which 1 to 16 workers run. `NoPrices` comes exactly
/// where the search's least error exceeds what its settings accept. Both are determined by the four
/// numbers, and by no number of workers.
pub fn made_summary<R: Threads + Wait + Sync>(
    rt: &R,
    alloc: Global,
    workers: u16,
    numbers: Numbers,
    gate: &(dyn Gate + Sync),
) -> Result<Vec<u8>, PublishEnd>
    requires { (1 ≤ workers) × (workers ≤ MAX_WORKERS) }
    ensures text { IfOk result
        (λ text. IsMadeSummary numbers.seed numbers.students numbers.sections numbers.accept
        text.items) }
    ensures no_prices { (least : ℕ) → result ≡ Err (PublishEnd.NoPrices least)
        → IsMadeUnpriced numbers.seed numbers.students numbers.sections numbers.accept least }
{
    let made = make_market(alloc, numbers)?;
    let market = Market {
        catalog: &made.catalog,
        roll: &made.roll,
        settings: &made.settings,
    };
    held_summary(rt, alloc, workers, &market, &made.streams, gate)
}
