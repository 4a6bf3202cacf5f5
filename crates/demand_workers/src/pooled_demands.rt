// The demands of a crowd, found by workers.
ghost use Rattle.std.specs.Prelude.{◌≡◌, IfSome};
ghost use Rattle.std.specs.Arc.{arc_value};
ghost use Rattle.demand_api.specs.Views.{data_of};
ghost use Rattle.demand_workers.specs.Views.{crowd_of};
ghost use Rattle.std.proofs.Props.{props};
ghost use Rattle.std.specs.Coded.{codes};
ghost use Rattle.bundle_rules.specs.contracts.menu.Rated as rated;

mod inquiry_count;

use crate::Pool;
use crate::allowance::walks_for;
use crate::asker::Asker;
use crate::foreseen::Foreseen;
use crate::notes::Notes;
use crate::remembered::Remembered;
use crate::taking::read_listed;
use bundle_rules::Bundle;
use demand_api::{Crowd, Demands};
use demand_oracle::MOST_KEPT;
pub(crate) use inquiry_count::InquiryCount;
use market_edge::{AnyGate, Gate};
use market_units::{MAX_STUDENTS, MAX_VERSIONS, NoMemory, SectionNo, StudentNo, Tokens};
use std::alloc::Global;
use std::sync::{Arc, Wait};
use std::thread::Threads;

/// A crowd that is asked by the workers of a pool, each with a workspace of its own. What each
/// student takes at some prices is remembered. Whom that does not settle at the versions of a call,
/// or at all that several workers are told of before, is asked in one round: a list of students,
/// each at a version, which workers draw from a price board, each in a thread of its own where one
/// can be started, or the first worker alone, in the caller's thread, where the list is short. Where
/// nothing is remembered, and in `exceeds`, each student is a task of such a board. Workers pass the
/// gate before their first draw and after each post. On a walk to a least price the holder who
/// leaves next is asked, alone. What is found is noted, and serves wherever no section of the
/// student's menu costs less and a noted bundle is affordable. Where a call asked as many as it may,
/// the rest of a walk is found by halving. The one form of this type is `PooledDemands<AnyGate>`,
/// which `make` gives.
#[derive(Drop)]
pub struct PooledDemands<G> {
    crowd: Arc<Crowd>,
    pool: Pool,
    gate: G,
    asked: u64,
    // At least how many students were asked: each task of a round.
    inquiries: InquiryCount,
    remembered: Option<Arc<Remembered>>,
    notes: Option<Notes>,
    // The last survey that counts were asked of, or will be where they were foreseen.
    foreseen: Option<Foreseen>,
    ghost same: { IfSome remembered (λ memory. crowd_of (arc_value memory) ≡ data_of (arc_value crowd)) } by { Prim.hlevel (props, codes, rated.the_row.coded) },
    ghost surveyed: { IfSome foreseen (λ foreseen. crowd_of (arc_value foreseen.survey.found.inquiries.remembered) ≡ data_of (arc_value crowd)) } by { Prim.hlevel (props, codes, rated.the_row.coded) },
    ghost noted: { IfSome notes (λ noted. crowd_of (arc_value noted.remembered) ≡ data_of (arc_value crowd)) } by { Prim.hlevel (props, codes, rated.the_row.coded) },
}

impl<'g> PooledDemands<AnyGate<'g>> {
    /// The demands of this crowd, of which nothing was asked, for the workers of a pool. It takes
    /// no memory.
    pub fn make(
        pool: Pool,
        crowd: Arc<Crowd>,
        gate: &'g (dyn Gate + Sync),
    ) -> PooledDemands<AnyGate<'g>>
        ensures crowd { ⟦<PooledDemands<AnyGate<'g>> as Demands>⟧.crowd result
            ≡ data_of (arc_value crowd) }
        ensures asked { ⟦<PooledDemands<AnyGate<'g>> as Demands>⟧.asked result ≡ 0 }
        ensures inquiries { ⟦<PooledDemands<AnyGate<'g>> as Demands>⟧.inquiries result ≡ 0 }
    {
        PooledDemands {
            crowd,
            pool,
            gate,
            asked: 0,
            inquiries: InquiryCount::none(),
            remembered: None,
            notes: None,
            foreseen: None,
        }
    }
}

impl Demands for PooledDemands<AnyGate<'_>> {
    ghost crowd = { λ demands. data_of (arc_value demands.crowd) };

    ghost asked = { λ demands. demands.asked };

    ghost inquiries = { λ demands. demands.inquiries };

    fn top(&self) -> Tokens {
        self.crowd.top()
    }

    fn students(&self) -> u16 {
        let crowd: &Crowd = &self.crowd;
        crowd.menus.len() as u16
    }

    fn counts<R: Threads + Wait + Sync>(
        &mut self,
        rt: &R,
        alloc: Global,
        batch: &[Vec<Tokens>],
    ) -> Result<Vec<Vec<u32>>, NoMemory> {
        self.asked = self.asked.saturating_add(1);
        let mut found = Vec::with_capacity(alloc, batch.len())?;
        let earlier = self.foreseen.take();
        let asker = Asker {
            alloc,
            crowd: &self.crowd,
            pool: &self.pool,
            gate: self.gate,
        };
        let Foreseen { survey, done } = asker.surveyed(
            rt,
            &mut self.inquiries,
            &mut self.remembered,
            earlier,
            batch,
        )?;
        let base = survey.remembered_counts(alloc)?;
        for version in 0..batch.len() {
            let counts = survey.counts_at(alloc, &base, done + version)?;
            found.push(counts)?;
        }
        let done = done + batch.len();
        self.foreseen = Some(Foreseen { survey, done });
        Ok(found)
    }

    fn foresee<R: Threads + Wait + Sync>(
        &mut self,
        rt: &R,
        alloc: Global,
        vectors: &[Vec<Tokens>],
    ) -> Result<(), NoMemory> {
        if self.pool.workers == 1 || vectors.is_empty() {
            return Ok(());
        }
        let asker = Asker {
            alloc,
            crowd: &self.crowd,
            pool: &self.pool,
            gate: self.gate,
        };
        let foreseen = asker.foreseen(rt, &mut self.inquiries, &mut self.remembered, vectors)?;
        if let Some(ahead) = foreseen {
            self.foreseen = Some(ahead);
        }
        Ok(())
    }

    fn bundles<R: Threads + Wait + Sync>(
        &mut self,
        rt: &R,
        alloc: Global,
        prices: &[Tokens],
        students: &[StudentNo],
    ) -> Result<Vec<Bundle>, NoMemory> {
        self.asked = self.asked.saturating_add(1);
        let mut bundles = vec![in alloc; Bundle::empty(); students.len()]?;
        let asker = Asker {
            alloc,
            crowd: &self.crowd,
            pool: &self.pool,
            gate: self.gate,
        };
        let remembered = asker.recall(rt, &mut self.inquiries, &mut self.remembered, prices)?;
        read_listed(&remembered, students, &mut bundles);
        Ok(bundles)
    }

    fn exceeds<R: Threads + Wait + Sync>(
        &mut self,
        rt: &R,
        alloc: Global,
        prices: &[Tokens],
        section: SectionNo,
        limit: u32,
    ) -> Result<bool, NoMemory> {
        self.asked = self.asked.saturating_add(1);
        let asker = Asker {
            alloc,
            crowd: &self.crowd,
            pool: &self.pool,
            gate: self.gate,
        };
        let remembered: Option<&Remembered> = match &self.remembered {
            Some(remembered) => Some(remembered),
            None => None,
        };
        asker.is_exceeded(rt, &mut self.inquiries, remembered, prices, section, limit)
    }

    fn least_prices<R: Threads + Wait + Sync>(
        &mut self,
        rt: &R,
        alloc: Global,
        prices: &[Tokens],
        pairs: &[(SectionNo, u32)],
    ) -> Result<Vec<Tokens>, NoMemory> {
        if pairs.is_empty() {
            return Ok(Vec::new(alloc));
        }
        let asker = Asker {
            alloc,
            crowd: &self.crowd,
            pool: &self.pool,
            gate: self.gate,
        };
        let remembered = asker.recall(rt, &mut self.inquiries, &mut self.remembered, prices)?;
        let kept = if pairs.len() == 1 { MOST_KEPT } else { 1 };
        let mut notes = Notes::at(alloc, self.notes.take(), remembered, kept);
        let mut left = walks_for(&self.crowd, pairs.len());
        let [pair] = pairs else {
            let found = asker.least_for_each(
                rt,
                &mut self.inquiries,
                &mut notes,
                pairs,
                &mut left,
            )?;
            self.notes = Some(notes);
            return Ok(found);
        };
        let (least, memory) = asker.raised(rt, &mut self.inquiries, &mut notes, *pair, &mut left)?;
        let found = vec![in alloc; least; 1]?;
        self.remembered = Some(Arc::new(alloc, memory)?);
        self.notes = Some(notes);
        Ok(found)
    }
}
