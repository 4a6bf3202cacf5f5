// Four students of budgets 100 to 103 who want the one section, asked by some workers.
ghost use Rattle.std.specs.Prelude.{IsTrue};
ghost use Rattle.demand_api.specs.{Asking.ArePricesFor, Views.data_of};
ghost use Rattle.demand_workers.specs.Rounds.{AreVersionsFor};

use crate::tests::rivals::rivals;
use demand_api::{Crowd, Demands};
use demand_workers::{Pool, PooledDemands};
use market_edge::{Gate, OpenGate, Stop};
use market_units::{MAX_WORKERS, NoMemory, SectionNo, StudentNo, Tokens};
use std::alloc::Global;
use std::process::Abort;
use std::sync::atomic::{AtomicU64, Ordering};
use std::sync::{Arc, Wait};
use std::test::Fail;
use std::thread::Threads;

/// Counts the starts of workers and their posts.
#[derive(Drop)]
pub(crate) struct CountingGate {
    starts: AtomicU64,
    calls: AtomicU64,
}

impl CountingGate {
    /// A gate that has counted nothing.
    pub(crate) fn new() -> Self {
        CountingGate {
            starts: AtomicU64::new(0),
            calls: AtomicU64::new(0),
        }
    }

    /// How often workers started and posted since this was asked last.
    pub(crate) fn take(&self) -> (u64, u64) {
        (
            self.starts.swap(0, Ordering::SeqCst),
            self.calls.swap(0, Ordering::SeqCst),
        )
    }
}

impl Gate for CountingGate {
    fn pass(&self, stop: Stop) {
        match stop {
            Stop::WorkerStart(_) => {
                self.starts.fetch_add(1, Ordering::SeqCst);
            }
            Stop::WorkerCall(_) => {
                self.calls.fetch_add(1, Ordering::SeqCst);
            }
            _ => {}
        }
    }
}

// So many students with budgets from 100 on, shared by workers.
fn shared_rivals<R: Abort>(rt: &R, alloc: Global, count: u32) -> Result<Arc<Crowd>, NoMemory> {
    Ok(Arc::new(alloc, rivals(rt, alloc, count))?)
}

/// Whether each of these vectors has prices that can be asked of the crowd.
pub(crate) fn all_have_prices(crowd: &Crowd, batch: &[Vec<Tokens>]) -> bool
    ensures { IsTrue result → AreVersionsFor (data_of crowd.now) batch.now }
{
    match batch {
        [] => true,
        [prices, more @ ..] => crowd.has_prices(prices) && all_have_prices(crowd, more),
    }
}

/// The vector of one price.
pub(crate) fn at(alloc: Global, price: u32) -> Result<Vec<Tokens>, NoMemory> {
    Ok(vec![in alloc; Tokens(price); 1]?)
}

/// How many of the four take the section at 104, 102, 103 and 0, asked in one call of so many
/// workers.
pub(crate) fn counts_by<R: Abort + Threads + Wait + Sync>(
    rt: &R,
    alloc: Global,
    workers: u16,
    gate: &(dyn Gate + Sync),
) -> Result<[u32; 4], Fail> {
    assert!(rt; 1 <= workers && workers <= MAX_WORKERS);
    let crowd = shared_rivals(rt, alloc, 4)?;
    let batch = [
        at(alloc, 104)?,
        at(alloc, 102)?,
        at(alloc, 103)?,
        at(alloc, 0)?,
    ];
    assert!(rt; all_have_prices(&crowd, &batch));
    let mut demands = PooledDemands::make(Pool::reserve(alloc, workers)?, crowd, gate);
    let found = demands.counts(rt, alloc, &batch)?;
    let mut counts = [9; 4];
    assert_eq!(rt; found.len(), 4);
    for version in 0..4 {
        assert_eq!(rt; found[version].len(), 1);
        counts[version] = found[version][0];
    }
    Ok(counts)
}

// 600 students have budgets from 100 to 699, and each wants the one section: at 100 all of them take
// it, at 140 all but 40. So many students, at so many prices, are enough for two threads to look for
// those who must be asked.
#[test]
fn counts_of_many(rt: HostRuntime) -> Result<(), Fail> {
    let alloc = rt.alloc();
    let crowd = shared_rivals(&rt, alloc, 600)?;
    let mut batch = Vec::new(alloc);
    for version in 0..16 {
        batch.push(at(alloc, 100 + 40 * version)?)?;
    }
    assert_eq!(rt; batch.len(), 16);
    assert!(rt; all_have_prices(&crowd, &batch));
    let mut demands = PooledDemands::make(Pool::reserve(alloc, 2)?, crowd, &OpenGate);
    let found = demands.counts(&rt, alloc, &batch)?;
    assert_eq!(rt; found.len(), 16);
    for version in 0..16 {
        let able = 600 - 40 * version as u32;
        assert_eq!(rt; found[version].as_slice(), [able].as_slice());
    }
    Ok(())
}

// A vector of one price for each price from one on, and below another.
fn at_each(alloc: Global, from: u32, below: u32) -> Result<Vec<Vec<Tokens>>, NoMemory> {
    let mut vectors = Vec::new(alloc);
    for price in from..below {
        vectors.push(at(alloc, price)?)?;
    }
    Ok(vectors)
}

// The prices from 84 to 103 are told before counts at them are asked for. All four students are
// asked at the first, and then who cannot pay one of the others: one at 101, two at 102, three at
// 103. These are two rounds of two workers. So counts at sixteen of the prices, and then at four,
// ask nobody.
#[test]
fn counts_that_were_foreseen(rt: HostRuntime) -> Result<(), Fail> {
    let alloc = rt.alloc();
    let crowd = shared_rivals(&rt, alloc, 4)?;
    let all = at_each(alloc, 84, 104)?;
    let first = at_each(alloc, 84, 100)?;
    let second = at_each(alloc, 100, 104)?;
    assert_eq!(rt; first.len(), 16);
    assert_eq!(rt; second.len(), 4);
    assert!(rt; all_have_prices(&crowd, &all));
    assert!(rt; all_have_prices(&crowd, &first));
    assert!(rt; all_have_prices(&crowd, &second));
    let gate = CountingGate::new();
    let mut demands = PooledDemands::make(Pool::reserve(alloc, 2)?, crowd, &gate);
    demands.foresee(&rt, alloc, &all)?;
    assert_eq!(rt; gate.take(), (4, 10));
    let found = demands.counts(&rt, alloc, &first)?;
    for counts in &found {
        assert_eq!(rt; counts.as_slice(), [4].as_slice());
    }
    let found = demands.counts(&rt, alloc, &second)?;
    assert_eq!(rt; gate.take(), (0, 0));
    assert_eq!(rt; found.len(), 4);
    for more in 0..4 {
        let able = 4 - more as u32;
        assert_eq!(rt; found[more].as_slice(), [able].as_slice());
    }
    Ok(())
}

// Prices from 84 on are told, and then a count is asked for at 103, which one student can pay.
#[test]
fn a_count_that_was_not_told_next(rt: HostRuntime) -> Result<(), Fail> {
    let alloc = rt.alloc();
    let crowd = shared_rivals(&rt, alloc, 4)?;
    let all = at_each(alloc, 84, 104)?;
    let last = [at(alloc, 103)?];
    assert!(rt; all_have_prices(&crowd, &all));
    assert!(rt; all_have_prices(&crowd, &last));
    let mut demands = PooledDemands::make(Pool::reserve(alloc, 2)?, crowd, &OpenGate);
    demands.foresee(&rt, alloc, &all)?;
    let found = demands.counts(&rt, alloc, &last)?;
    assert_eq!(rt; only(&rt, &found), 1);
    Ok(())
}

#[test]
fn counts_of_four_students(rt: HostRuntime) -> Result<(), Fail> {
    for workers in [1, 2, 16] {
        let found = counts_by(&rt, rt.alloc(), workers, &OpenGate)?;
        assert_eq!(rt; found, [0, 2, 1, 4], "{workers} workers");
    }
    Ok(())
}

/// The one count of one version.
pub(crate) fn only<R: Abort>(rt: &R, found: &[Vec<u32>]) -> u32 {
    assert_eq!(rt; found.len(), 1);
    assert_eq!(rt; found[0].len(), 1);
    found[0][0]
}

// How many take the section at 102, then at 103, then for nothing, and how often two workers
// started and posted for each.
fn counts_in_turn<R: Abort + Threads + Wait + Sync>(
    rt: &R,
    alloc: Global,
) -> Result<[(u32, (u64, u64)); 3], Fail> {
    let crowd = shared_rivals(rt, alloc, 4)?;
    let first = [at(alloc, 102)?];
    let second = [at(alloc, 103)?];
    let third = [at(alloc, 0)?];
    assert!(rt; all_have_prices(&crowd, &first));
    assert!(rt; all_have_prices(&crowd, &second));
    assert!(rt; all_have_prices(&crowd, &third));
    let gate = CountingGate::new();
    let mut demands = PooledDemands::make(Pool::reserve(alloc, 2)?, crowd, &gate);
    let found = demands.counts(rt, alloc, &first)?;
    let at_first = (only(rt, &found), gate.take());
    let found = demands.counts(rt, alloc, &second)?;
    let at_second = (only(rt, &found), gate.take());
    let found = demands.counts(rt, alloc, &third)?;
    let at_third = (only(rt, &found), gate.take());
    Ok([at_first, at_second, at_third])
}

// At the second prices three students keep what is remembered, so that the fourth alone is asked,
// and by one worker; at the third nothing is kept. Two workers ask all four, and the first time one
// has a round of nobody behind that.
#[test]
fn who_keeps_its_bundle_is_not_asked(rt: HostRuntime) -> Result<(), Fail> {
    let found = counts_in_turn(&rt, rt.alloc())?;
    assert_eq!(rt; found, [(2, (3, 4)), (1, (1, 1)), (4, (2, 4))]);
    Ok(())
}

// Which of the last student, the first, and the third twice take the section at 102.
fn bundles_by<R: Abort + Threads + Wait + Sync>(
    rt: &R,
    alloc: Global,
    workers: u16,
) -> Result<[bool; 4], Fail> {
    assert!(rt; 1 <= workers && workers <= MAX_WORKERS);
    let crowd = shared_rivals(rt, alloc, 4)?;
    let prices = [Tokens(102)];
    assert!(rt; crowd.has_prices(&prices));
    let mut demands = PooledDemands::make(Pool::reserve(alloc, workers)?, crowd, &OpenGate);
    assert_eq!(rt; demands.students(), 4);
    assert_eq!(rt; demands.top(), Tokens(104));
    let students = [StudentNo(3), StudentNo(0), StudentNo(2), StudentNo(2)];
    let found = demands.bundles(rt, alloc, &prices, &students)?;
    assert_eq!(rt; found.len(), 4);
    let mut have = [false; 4];
    for place in 0..4 {
        have[place] = found[place].has(SectionNo(0));
    }
    Ok(have)
}

#[test]
fn bundles_of_four_students(rt: HostRuntime) -> Result<(), Fail> {
    for workers in [1, 2, 16] {
        let found = bundles_by(&rt, rt.alloc(), workers)?;
        assert_eq!(rt; found, [true, false, true, true], "{workers} workers");
    }
    Ok(())
}

/// Whether more than the limit of the four take the section where it is free, asked by so many
/// workers.
pub(crate) fn exceeds_by<R: Abort + Threads + Wait + Sync>(
    rt: &R,
    alloc: Global,
    workers: u16,
    limit: u32,
    gate: &(dyn Gate + Sync),
) -> Result<bool, Fail> {
    assert!(rt; 1 <= workers && workers <= MAX_WORKERS);
    let crowd = shared_rivals(rt, alloc, 4)?;
    let prices = [Tokens(0)];
    assert!(rt; crowd.has_prices(&prices));
    assert_eq!(rt; crowd.sections, 1);
    let mut demands = PooledDemands::make(Pool::reserve(alloc, workers)?, crowd, gate);
    Ok(demands.exceeds(rt, alloc, &prices, SectionNo(0), limit)?)
}

// The same of one worker, and how many bundles it posted for the answer.
fn settle<R: Abort + Threads + Wait + Sync>(
    rt: &R,
    alloc: Global,
    limit: u32,
) -> Result<(bool, u64), Fail> {
    let gate = CountingGate::new();
    let more = exceeds_by(rt, alloc, 1, limit, &gate)?;
    let (_, calls) = gate.take();
    Ok((more, calls))
}

#[test]
fn a_comparison_settles_early(rt: HostRuntime) -> Result<(), Fail> {
    for (limit, wanted) in [(2, (true, 3)), (3, (true, 4)), (4, (false, 0))] {
        assert_eq!(rt; settle(&rt, rt.alloc(), limit)?, wanted);
    }
    Ok(())
}

// The least prices from 50 up at which at most 2, 4, none and 1 of the four take the section.
#[test]
fn least_prices_of_four_students(rt: HostRuntime) -> Result<(), Fail> {
    let alloc = rt.alloc();
    let crowd = shared_rivals(&rt, alloc, 4)?;
    let prices = [Tokens(50)];
    assert!(rt; crowd.has_prices(&prices));
    assert_eq!(rt; crowd.sections, 1);
    let mut demands = PooledDemands::make(Pool::reserve(alloc, 2)?, crowd, &OpenGate);
    let section = SectionNo(0);
    let pairs = [(section, 2), (section, 4), (section, 0), (section, 1)];
    let found = demands.least_prices(&rt, alloc, &prices, &pairs)?;
    let wanted = [102, 50, 104, 103].map(Tokens);
    assert_eq!(rt; found.as_slice(), wanted.as_slice());
    Ok(())
}

// The least prices from 50 up at which at most 30, 10 and all of a hundred take the section.
#[test]
fn least_prices_of_many(rt: HostRuntime) -> Result<(), Fail> {
    let alloc = rt.alloc();
    let crowd = shared_rivals(&rt, alloc, 100)?;
    let prices = [Tokens(50)];
    assert!(rt; crowd.has_prices(&prices));
    assert_eq!(rt; crowd.sections, 1);
    let mut demands = PooledDemands::make(Pool::reserve(alloc, 2)?, crowd, &OpenGate);
    let section = SectionNo(0);
    let pairs = [(section, 30), (section, 10), (section, 100)];
    let found = demands.least_prices(&rt, alloc, &prices, &pairs)?;
    let wanted = [170, 190, 50].map(Tokens);
    assert_eq!(rt; found.as_slice(), wanted.as_slice());
    let found = demands.least_prices(&rt, alloc, &prices, &[(section, 30)])?;
    assert_eq!(rt; found.len(), 1);
    assert_eq!(rt; found[0], Tokens(170));
    Ok(())
}
