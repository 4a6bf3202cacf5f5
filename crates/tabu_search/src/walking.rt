// Where a search is, and its turns.
ghost use Rattle.std.specs.Prelude.{◌≡◌, ◌↔◌, ◌<◌, ◌≤◌, ◌^◌, ◌+◌, ℕ, List, IsTrue, IfOk, MatchOption, if◌then◌else◌, nat_eq, nat_lt};
ghost use Rattle.std.specs.List.{list_any};
ghost use Rattle.std.specs.Cmp.Lexicographic.{pointwise};
ghost use Rattle.demand_api.specs.Crowds.{CrowdData, top as top_of};
ghost use Rattle.tabu_search.specs.Visits.{chosen, after_turns};
ghost use Rattle.tabu_search.specs.Walks.{IsNext, IsStart, IsWalk, IsEntered};

use crate::counting::count_all;
use crate::drawing::drawn_prices;
use crate::visiting::{Visit, visit_at};
use circular_buffer::HeapCircularBuffer;
use clearing_error::error;
use demand_api::Demands;
use market_settings::Settings;
use market_units::{NoMemory, Tokens};
use price_neighbours::neighbours;
use std::alloc::Global;
use std::sync::Wait;
use std::thread::Threads;

// The first visited vector of least error, with that error.
#[derive(Drop)]
pub(crate) struct Best {
    pub(crate) prices: Vec<Tokens>,
    pub(crate) error: u64,
}

// Where a search is after some turns.
#[derive(Drop)]
pub(crate) struct Walk {
    // The counts at the last visited vectors, the current one's last.
    pub(crate) window: HeapCircularBuffer<Vec<u32>>,
    pub(crate) current: Visit,
    pub(crate) best: Best,
    // The turns since a better vector or a restart.
    pub(crate) stale: u32,
    pub(crate) restarts: u32,
    pub(crate) turns: u32,
    pub(crate) top: Tokens,
}

// Whether the counts are among those of the window.
fn is_tabu(window: &HeapCircularBuffer<Vec<u32>>, counts: &[u32]) -> bool
    ensures { result
        ≡ list_any (λ other. pointwise nat_eq counts.now other.items) window.now.items }
{
    window.iter().any(|other| counts == other.as_slice())
}

// Whether the error is lower than that of the best so far, if there is one.
fn is_lower(error: u64, best: Option<(usize, u64)>) -> bool
    ensures { IsTrue result ↔ MatchOption best (Unit {0}) (λ chosen. error < chosen.1) }
{
    match best {
        None => true,
        Some((_, least)) => error < least,
    }
}

// The better of the two, and of equal ones the earlier.
fn better(alloc: Global, best: Best, visit: &Visit) -> Result<Best, NoMemory>
    ensures lower { visit.now.error < best.error
        → IfOk result
        (λ next. (next.prices.items ≡ visit.now.prices.items)
        × (next.error ≡ visit.now.error)) }
    ensures kept { best.error ≤ visit.now.error → IfOk result (λ next. next ≡ best) }
{
    if visit.error >= best.error {
        return Ok(best);
    }
    Ok(Best {
        prices: visit.prices.to_vec(alloc)?,
        error: visit.error,
    })
}

impl Walk {
    /// The search before its first turn: it made this visit alone, which is the best so far.
    pub(crate) fn begin(
        alloc: Global,
        current: Visit,
        top: Tokens,
        settings: &Settings,
    ) -> Result<Walk, NoMemory>
        ensures walk { IfOk result
            (λ walk. (crowd : CrowdData) (seats : List ℕ)
            → IsStart crowd seats current → top.0 ≡ top_of crowd
            → IsWalk crowd seats settings.now walk) }
        ensures turns { IfOk result (λ walk. walk.turns ≡ 0) }
    {
        let mut window = HeapCircularBuffer::with_capacity(alloc, settings.tabu as usize)?;
        window.push_back(current.counts.to_vec(alloc)?);
        let best = Best {
            prices: current.prices.to_vec(alloc)?,
            error: current.error,
        };
        Ok(Walk {
            window,
            current,
            best,
            stale: 0,
            restarts: 0,
            turns: 0,
            top,
        })
    }

    /// Whether another turn follows: the error of the current vector is above the accepted one, and
    /// fewer turns were made than the settings allow.
    pub(crate) fn goes_on(&self, settings: &Settings) -> bool
        ensures { IsTrue result ↔ (settings.now.accept < self.now.current.error)
            × (self.now.turns < settings.now.turns) }
    {
        self.current.error > settings.accept && self.turns < settings.turns
    }

    /// Makes one turn, where the settings allow another: moves to the chosen neighbour or, where
    /// there is none, to the drawn prices of the next restart.
    pub(crate) fn turn<R: Threads + Wait + Sync, D: Demands>(
        self,
        rt: &R,
        alloc: Global,
        demands: &mut D,
        seats: &[u16],
        settings: &Settings,
    ) -> Result<Walk, NoMemory>
        requires walk { IsWalk (D.crowd demands.old) seats.now settings.now self }
        requires turns { self.turns < settings.now.turns }
        ensures crowd { D.crowd demands.new ≡ D.crowd demands.old }
        ensures walk { IfOk result (IsWalk (D.crowd demands.old) seats.now settings.now) }
        ensures turns { IfOk result (λ walk. walk.turns ≡ self.turns + 1) }
    {
        prove!(self.turns < settings.turns);
        match self.chosen(rt, alloc, demands, seats, settings)? {
            Some(visit) => {
                let stale = self.stale_after(visit.error);
                let restarts = self.restarts;
                self.entered(alloc, visit, stale, restarts)
            }
            None => {
                let restart = self.restarts + 1;
                let prices = drawn_prices(alloc, self.top, settings.seed, restart, seats.len())?;
                let visit = visit_at(rt, alloc, demands, seats, prices)?;
                self.entered(alloc, visit, 0, restart)
            }
        }
    }

    // The stale turns after a move to a vector of this error.
    fn stale_after(&self, error: u64) -> u32
        requires { self.now.stale + 1 < 2 ^ 32 }
        ensures { result ≡ (if nat_lt error self.now.best.error then 0 else self.now.stale + 1) }
    {
        if error < self.best.error {
            0
        } else {
            self.stale + 1
        }
    }

    // The walk with one visit more.
    fn entered(
        self,
        alloc: Global,
        visit: Visit,
        stale: u32,
        restarts: u32,
    ) -> Result<Walk, NoMemory>
        requires { self.turns + 1 < 2 ^ 32 }
        ensures { IfOk result (IsEntered self visit stale restarts) }
    {
        let Walk {
            mut window,
            best,
            turns,
            top,
            ..
        } = self;
        let best = better(alloc, best, &visit)?;
        window.push_back(visit.counts.to_vec(alloc)?);
        Ok(Walk {
            window,
            current: visit,
            best,
            stale,
            restarts,
            turns: turns + 1,
            top,
        })
    }

    // Where the turn moves to, if it is no restart: the first of least error of those neighbours
    // whose counts are none of the window's.
    fn chosen<R: Threads + Wait + Sync, D: Demands>(
        &self,
        rt: &R,
        alloc: Global,
        demands: &mut D,
        seats: &[u16],
        settings: &Settings,
    ) -> Result<Option<Visit>, NoMemory>
        requires walk { IsWalk (D.crowd demands.old) seats.now settings.now self.now }
        ensures crowd { D.crowd demands.new ≡ D.crowd demands.old }
        ensures next { IfOk result
            (IsNext (D.crowd demands.old) seats.now
            (chosen (D.crowd demands.old) seats.now settings.now
            (after_turns (D.crowd demands.old) seats.now settings.now self.now.turns))) }
    {
        if self.stale >= settings.patience {
            return Ok(None);
        }
        let prices = &self.current.prices;
        let counts = &self.current.counts;
        let steps = settings.steps.as_slice();
        let mut vectors = neighbours(rt, alloc, demands, prices, counts, seats, steps)?;
        let mut counted = count_all(rt, alloc, demands, &vectors)?;
        let mut best = None;
        for place in 0..vectors.len() {
            if is_tabu(&self.window, &counted[place]) {
                continue;
            }
            let error = error(&counted[place], seats, &vectors[place]);
            if !is_lower(error, best) {
                continue;
            }
            best = Some((place, error));
        }
        let Some((place, error)) = best else {
            return Ok(None);
        };
        Ok(Some(Visit {
            prices: vectors.swap_remove(place),
            counts: counted.swap_remove(place),
            error,
        }))
    }
}
