// What a crowd takes.
ghost use Rattle.std.specs.Prelude.{◌≡◌, ◌<◌, ◌≤◌, IfOk, All, length, map, min};
ghost use Rattle.bundle_rules.specs.Places.{places_from};
ghost use Rattle.demand_api.specs.Crowds.{holders};
ghost use Rattle.demand_text.specs.Taken.{IsTakenBy, taken_at};

use bundle_rules::Bundle;
use clearing_error::error;
use demand_api::Demands;
use market_units::{MAX_SECTIONS, MAX_STUDENTS, NoMemory, SectionNo, Tokens};
use own_price::Held;
use std::alloc::Global;
use std::marker::Model;
use std::sync::Wait;
use std::thread::Threads;

/// What a crowd takes at given prices: each student's bundle, how many students take each section,
/// and the clearing error.
#[derive(Drop)]
pub struct Taken {
    held: Held,
    counts: Vec<u32>,
    error: u64,
}

impl Model for Taken {
    ghost use Rattle.demand_text.specs.Taken.{TakenData};

    ghost Value = { TakenData };

    ghost view = { λ taken. record { bundles = taken.held.bundles; counts = taken.counts.items; error = taken.error } };
}

impl Taken {
    ghost use Rattle.std.specs.Prelude.{map};
    ghost use Rattle.bundle_rules.specs.Bundles.{sections_of};

    /// What a crowd takes where its sections have these seats and these prices. A price above the
    /// top is asked as the top, which changes nothing (`demand_api::laws`). `NoMemory` is the only
    /// error.
    pub fn at<R: Threads + Wait + Sync, D: Demands>(
        rt: &R,
        alloc: Global,
        demands: &mut D,
        seats: &[u16],
        prices: &[Tokens],
    ) -> Result<Taken, NoMemory>
        requires seats { length seats.now ≡ (D.crowd demands.old).sections }
        requires prices { length prices.now ≡ (D.crowd demands.old).sections }
        ensures crowd { D.crowd demands.new ≡ D.crowd demands.old }
        ensures value { IfOk result
            (λ taken. taken ≡ taken_at (D.crowd demands.old) seats.now prices.now) }
        ensures by { IfOk result
            (λ taken. IsTakenBy (length (D.crowd demands.old).students)
            (D.crowd demands.old).sections taken) }
    {
        let asked = capped(alloc, prices, demands.top())?;
        let held = Held::take(rt, alloc, demands, &asked)?;
        let counts = counts_of(alloc, &held, seats.len())?;
        let error = error(&counts, seats, prices);
        Ok(Taken {
            held,
            counts,
            error,
        })
    }

    /// The bundle of each student, in file order.
    pub fn bundles(&self) -> &[Bundle]
        ensures { map sections_of result.now ≡ self.now.bundles }
    {
        self.held.bundles()
    }

    /// How many students take each section, in file order.
    pub fn counts(&self) -> &[u32]
        ensures { result.now ≡ self.now.counts }
    {
        &self.counts
    }

    /// The clearing error.
    pub fn error(&self) -> u64
        ensures { result ≡ self.now.error }
    {
        self.error
    }
}

// The prices, each cut to the top.
fn capped(alloc: Global, prices: &[Tokens], top: Tokens) -> Result<Vec<Tokens>, NoMemory>
    ensures { IfOk result
        (λ asked. asked.items ≡ map (λ price. record { 0 = min price.0 top.0 }) prices.now) }
{
    let asked = prices
        .iter()
        .map(|price| Tokens(price.0.min(top.0)))
        .collect(alloc)?;
    Ok(asked)
}

// How many students take each of so many sections.
fn counts_of(alloc: Global, held: &Held, sections: usize) -> Result<Vec<u32>, NoMemory>
    requires sections { sections ≡ length held.now.prices }
    requires few { sections ≤ MAX_SECTIONS }
    ensures each { IfOk result
        (λ found. found.items ≡ map (λ s. holders s held.now.bundles) (places_from 0 sections)) }
    ensures few { IfOk result (λ found. All (λ count. count ≤ MAX_STUDENTS) found.items) }
{
    let mut counts = Vec::with_capacity(alloc, sections)?;
    'sections: for section in 0..sections {
        counts.push(held.count(SectionNo(section as u16)))?;
    }
    Ok(counts)
}
