// Demands of a crowd in one thread, found by trying every choice.
ghost use Rattle.std.specs.Prelude.{◌≡◌, ◌<◌, ◌≤◌, ◌↔◌, ◌+◌, ◌*◌, IsTrue, IfOk, All};
ghost use Rattle.std.specs.Prelude.{length, map, max};
ghost use Rattle.std.specs.Arc.{arc_value};
ghost use Rattle.std.specs.Thread.{IsSync};
ghost use Rattle.bundle_rules.specs.{Bundles.sections_of, Demand.price_in};
ghost use Rattle.demand_api.specs.Asking.{ArePricesFor, RoseAtMost, RoseBy};
ghost use Rattle.demand_api.specs.Crowds.{count, counts, demand_of};
ghost use Rattle.demand_api.specs.Views.{data_of};
ghost use Rattle.market_units.specs.Counts.{one_more};

use crate::plain::{Priced, bundles, count_of, counts_at};
use crate::{Crowd, Demands};
use bundle_rules::Bundle;
use market_units::{MAX_STUDENTS, MAX_VERSIONS, NoMemory, SectionNo, StudentNo, Tokens};
use std::alloc::Global;
use std::sync::{Arc, Wait};
use std::thread::Threads;

/// A crowd that is asked in one thread. It tries every choice of each student, so it serves small
/// crowds.
#[derive(Drop)]
pub struct PlainDemands {
    crowd: Arc<Crowd>,
    asked: u64,
    inquiries: u64,
}

impl PlainDemands {
    /// The demands of this crowd, of which nothing was asked.
    pub fn make(crowd: Arc<Crowd>) -> PlainDemands
        ensures crowd { ⟦<PlainDemands as Demands>⟧.crowd result ≡ data_of (arc_value crowd) }
        ensures asked { ⟦<PlainDemands as Demands>⟧.asked result ≡ 0 }
        ensures inquiries { ⟦<PlainDemands as Demands>⟧.inquiries result ≡ 0 }
    {
        PlainDemands {
            crowd,
            asked: 0,
            inquiries: 0,
        }
    }
}

impl Demands for PlainDemands {
    ghost use Rattle.demand_api.specs.PlainCounts.{asked_of, crowd_of, inquiries_of};

    ghost crowd = { crowd_of };

    ghost asked = { asked_of };

    ghost inquiries = { inquiries_of };

    fn top(&self) -> Tokens {
        self.crowd.top()
    }

    fn students(&self) -> u16 {
        let crowd: &Crowd = &self.crowd;
        crowd.menus.len() as u16
    }

    fn counts<R: Threads + Wait + Sync>(
        &mut self,
        _rt: &R,
        alloc: Global,
        batch: &[Vec<Tokens>],
    ) -> Result<Vec<Vec<u32>>, NoMemory>
        requires sync { IsSync R.row }
        requires some { 1 ≤ length batch.now }
        requires few { length batch.now ≤ MAX_VERSIONS }
        requires prices { All (λ prices. ArePricesFor (crowd_of self.old) prices.items) batch.now }
        ensures crowd { crowd_of self.new ≡ crowd_of self.old }
        ensures asked { asked_of self.new ≡ one_more (asked_of self.old) }
        ensures inquiries { RoseAtMost
            ((length batch.now + 1) * length (crowd_of self.old).students) (inquiries_of self.old)
            (inquiries_of self.new) }

        // Each student is counted at each vector, also where memory was wanted.
        ensures counted { RoseBy (length batch.now * length (crowd_of self.old).students)
            (inquiries_of self.old) (inquiries_of self.new) }
        ensures value { IfOk result
            (λ found. map (λ counts. counts.items) found.items
            ≡ map (λ prices. counts (crowd_of self.old) (price_in prices.items)) batch.now) }
    {
        self.asked = self.asked.saturating_add(1);
        let round = usize::from(self.students());
        self.inquiries = self.inquiries.saturating_add((batch.len() * round) as u64);
        let crowd: &Crowd = &self.crowd;
        let mut found = Vec::new(alloc);
        for prices in batch {
            let counts = counts_at(alloc, &Priced { crowd, prices })?;
            found.push(counts)?;
        }
        Ok(found)
    }

    fn bundles<R: Threads + Wait + Sync>(
        &mut self,
        _rt: &R,
        alloc: Global,
        prices: &[Tokens],
        students: &[StudentNo],
    ) -> Result<Vec<Bundle>, NoMemory>
        requires sync { IsSync R.row }
        requires prices { ArePricesFor (crowd_of self.old) prices.now }
        requires few { length students.now ≤ MAX_STUDENTS }
        requires range { All (λ student. student.0 < length (crowd_of self.old).students)
            students.now }
        ensures crowd { crowd_of self.new ≡ crowd_of self.old }
        ensures asked { asked_of self.new ≡ one_more (asked_of self.old) }
        ensures inquiries { RoseAtMost
            (max (length students.now) (length (crowd_of self.old).students))
            (inquiries_of self.old) (inquiries_of self.new) }

        // Each who is listed is counted, also where memory was wanted.
        ensures counted { RoseBy (length students.now) (inquiries_of self.old)
            (inquiries_of self.new) }
        ensures value { IfOk result
            (λ bundles. map sections_of bundles.items
            ≡ map (λ student. demand_of (crowd_of self.old) (price_in prices.now) student.0)
            students.now) }
    {
        self.asked = self.asked.saturating_add(1);
        self.inquiries = self.inquiries.saturating_add(students.len() as u64);
        let crowd: &Crowd = &self.crowd;
        bundles(alloc, &Priced { crowd, prices }, students)
    }

    fn exceeds<R: Threads + Wait + Sync>(
        &mut self,
        _rt: &R,
        _alloc: Global,
        prices: &[Tokens],
        section: SectionNo,
        limit: u32,
    ) -> Result<bool, NoMemory>
        requires sync { IsSync R.row }
        requires prices { ArePricesFor (crowd_of self.old) prices.now }
        requires section { section.0 < (crowd_of self.old).sections }
        ensures crowd { crowd_of self.new ≡ crowd_of self.old }
        ensures asked { asked_of self.new ≡ one_more (asked_of self.old) }
        ensures inquiries { RoseAtMost (length (crowd_of self.old).students) (inquiries_of self.old)
            (inquiries_of self.new) }

        // Each student is counted.
        ensures counted { RoseBy (length (crowd_of self.old).students) (inquiries_of self.old)
            (inquiries_of self.new) }
        ensures value { IfOk result
            (λ more. IsTrue more
            ↔ (limit < count (crowd_of self.old) (price_in prices.now) section.0)) }
    {
        self.asked = self.asked.saturating_add(1);
        let round = self.students();
        self.inquiries = self.inquiries.saturating_add(u64::from(round));
        let crowd: &Crowd = &self.crowd;
        Ok(count_of(&Priced { crowd, prices }, section) > limit)
    }
}
