// What the students of a crowd take, remembered or asked.
ghost use Rattle.std.specs.Prelude.{◌≡◌, ◌≤◌, ◌+◌, ◌*◌, [], IfOk, IfSome, length};
ghost use Rattle.std.specs.Arc.{arc_value};
ghost use Rattle.demand_api.specs.Asking.{ArePricesFor, RoseAtMost};
ghost use Rattle.demand_api.specs.Views.{data_of};
ghost use Rattle.demand_workers.specs.{Foreseen.AreNext, Rounds.AreVersionsFor};
ghost use Rattle.demand_workers.specs.Rounds.{prices_of};
ghost use Rattle.demand_workers.specs.Remembered.{AreTaken};
ghost use Rattle.demand_workers.specs.Views.{crowd_of};

use crate::answering::read_all;
use crate::asker::Asker;
use crate::foreseen::Foreseen;
use crate::pooled_demands::InquiryCount;
use crate::remembered::{Remembered, are_same};
use crate::survey::Survey;
use crate::unsettled::inquiries_at;
use bundle_rules::Bundle;
use market_edge::AnyGate;
use market_units::{MAX_STUDENTS, MAX_VERSIONS, NoMemory, SectionSet, Tokens};
use price_board::Ask;
use std::sync::{Arc, Wait};
use std::thread::Threads;

// At most so many inquiries are asked before counts are asked for: as many as two calls of `counts`
// can ask. The list of those that would have to be asked is made before, however long it is.
const MOST_AHEAD: usize = 2 * MAX_VERSIONS * MAX_STUDENTS as usize;

impl Asker<'_, AnyGate<'_>> {
    /// What each student takes at these prices, which then is remembered.
    pub(crate) fn recall<R: Threads + Wait + Sync>(
        &self,
        rt: &R,
        inquiries: &mut InquiryCount,
        memory: &mut Option<Arc<Remembered>>,
        prices: &[Tokens],
    ) -> Result<Arc<Remembered>, NoMemory>
        requires same { IfSome memory.old
            (λ kept. crowd_of (arc_value kept) ≡ data_of (arc_value self.now.crowd.now)) }
        requires prices { ArePricesFor (data_of (arc_value self.now.crowd.now)) prices.now }
        ensures same { IfSome memory.new
            (λ kept. crowd_of (arc_value kept) ≡ data_of (arc_value self.now.crowd.now)) }
        ensures inquiries { RoseAtMost (length (data_of (arc_value self.now.crowd.now)).students)
            inquiries.old inquiries.new }
        ensures crowd { IfOk result
            (λ known. crowd_of (arc_value known) ≡ data_of (arc_value self.now.crowd.now)) }
        ensures prices { IfOk result (λ known. (arc_value known).prices.items ≡ prices.now) }
    {
        if let Some(kept) = memory {
            if are_same(&kept.prices, prices) {
                return Ok(Arc::try_clone(kept)?);
            }
        }
        let known = self.memory_at(rt, inquiries, memory, prices)?;
        let known = Arc::new(self.alloc, known)?;
        *memory = Some(Arc::try_clone(&known)?);
        Ok(known)
    }

    /// What is remembered; where nothing is, what each student takes at these prices, which then is
    /// remembered. Of several versions that lie close together one may serve for the others.
    pub(crate) fn recall_first<R: Threads + Wait + Sync>(
        &self,
        rt: &R,
        inquiries: &mut InquiryCount,
        memory: &mut Option<Arc<Remembered>>,
        prices: &[Tokens],
    ) -> Result<Arc<Remembered>, NoMemory>
        requires same { IfSome memory.old
            (λ kept. crowd_of (arc_value kept) ≡ data_of (arc_value self.now.crowd.now)) }
        requires prices { ArePricesFor (data_of (arc_value self.now.crowd.now)) prices.now }
        ensures same { IfSome memory.new
            (λ kept. crowd_of (arc_value kept) ≡ data_of (arc_value self.now.crowd.now)) }
        ensures inquiries { RoseAtMost (length (data_of (arc_value self.now.crowd.now)).students)
            inquiries.old inquiries.new }
        ensures crowd { IfOk result
            (λ known. crowd_of (arc_value known) ≡ data_of (arc_value self.now.crowd.now)) }
    {
        if let Some(kept) = memory {
            return Ok(Arc::try_clone(kept)?);
        }
        self.recall(rt, inquiries, memory, prices)
    }

    /// A survey of which these versions come next: the foreseen one, or else a new one. What is
    /// remembered once stays as it is here: a search counts its neighbours and then asks again near
    /// the vector where it stands.
    pub(crate) fn surveyed<R: Threads + Wait + Sync>(
        &self,
        rt: &R,
        inquiries: &mut InquiryCount,
        memory: &mut Option<Arc<Remembered>>,
        foreseen: Option<Foreseen>,
        batch: &[Vec<Tokens>],
    ) -> Result<Foreseen, NoMemory>
        requires same { IfSome memory.old
            (λ kept. crowd_of (arc_value kept) ≡ data_of (arc_value self.now.crowd.now)) }
        requires surveyed { IfSome foreseen
            (λ earlier. crowd_of (arc_value earlier.survey.found.inquiries.remembered)
            ≡ data_of (arc_value self.now.crowd.now)) }
        requires some { 1 ≤ length batch.now }
        requires prices { AreVersionsFor (data_of (arc_value self.now.crowd.now)) batch.now }
        ensures same { IfSome memory.new
            (λ kept. crowd_of (arc_value kept) ≡ data_of (arc_value self.now.crowd.now)) }
        ensures inquiries { RoseAtMost
            ((length batch.now + 1) * length (data_of (arc_value self.now.crowd.now)).students)
            inquiries.old inquiries.new }
        ensures crowd { IfOk result
            (λ foreseen. crowd_of
            (arc_value foreseen.survey.found.inquiries.remembered)
            ≡ data_of (arc_value self.now.crowd.now)) }
        ensures next { IfOk result
            (λ foreseen. AreNext
            (prices_of (arc_value foreseen.survey.found.inquiries.round).versions.items)
            foreseen.done (prices_of batch.now)) }
    {
        if let Some(foreseen) = foreseen {
            if foreseen.goes_on_with(batch) {
                return Ok(foreseen);
            }
        }
        let remembered = self.recall_first(rt, inquiries, memory, &batch[0])?;
        let survey = self.survey(rt, inquiries, &remembered, batch)?;
        Ok(Foreseen { survey, done: 0 })
    }

    /// A survey of vectors at which counts will be asked for; `None` where so many would have to be
    /// asked that it waits until they are.
    pub(crate) fn foreseen<R: Threads + Wait + Sync>(
        &self,
        rt: &R,
        inquiries: &mut InquiryCount,
        memory: &mut Option<Arc<Remembered>>,
        vectors: &[Vec<Tokens>],
    ) -> Result<Option<Foreseen>, NoMemory>
        requires same { IfSome memory.old
            (λ kept. crowd_of (arc_value kept) ≡ data_of (arc_value self.now.crowd.now)) }
        requires some { 1 ≤ length vectors.now }
        requires prices { AreVersionsFor (data_of (arc_value self.now.crowd.now)) vectors.now }
        ensures same { IfSome memory.new
            (λ kept. crowd_of (arc_value kept) ≡ data_of (arc_value self.now.crowd.now)) }
        ensures inquiries { RoseAtMost
            ((length vectors.now + 1) * length (data_of (arc_value self.now.crowd.now)).students)
            inquiries.old inquiries.new }
        ensures crowd { IfOk result
            (λ foreseen. IfSome foreseen
            (λ ahead. crowd_of (arc_value ahead.survey.found.inquiries.remembered)
            ≡ data_of (arc_value self.now.crowd.now))) }
    {
        let remembered = self.recall_first(rt, inquiries, memory, &vectors[0])?;
        let listed = inquiries_at(rt, self.alloc, self.pool.workers, &remembered, vectors)?;
        if listed.list().len() > MOST_AHEAD {
            return Ok(None);
        }
        let found = self.inquire(rt, inquiries, listed)?;
        let survey = Survey::of(self.alloc, found)?;
        Ok(Some(Foreseen { survey, done: 0 }))
    }

    // What each student takes at these prices, as it will be remembered.
    fn memory_at<R: Threads + Wait + Sync>(
        &self,
        rt: &R,
        inquiries: &mut InquiryCount,
        memory: &Option<Arc<Remembered>>,
        prices: &[Tokens],
    ) -> Result<Remembered, NoMemory>
        requires same { IfSome memory.now
            (λ kept. crowd_of (arc_value kept) ≡ data_of (arc_value self.now.crowd.now)) }
        requires prices { ArePricesFor (data_of (arc_value self.now.crowd.now)) prices.now }
        ensures inquiries { RoseAtMost (length (data_of (arc_value self.now.crowd.now)).students)
            inquiries.old inquiries.new }
        ensures crowd { IfOk result
            (λ known. crowd_of known ≡ data_of (arc_value self.now.crowd.now)) }
        ensures prices { IfOk result (λ known. known.prices.items ≡ prices.now) }
    {
        let copy = prices.to_vec(self.alloc)?;
        let crowd = Arc::try_clone(self.crowd)?;
        let allowed = SectionSet::full(crowd.sections);
        let bundles = self.all_bundles(rt, inquiries, memory, prices)?;
        Ok(Remembered {
            crowd,
            allowed,
            prices: copy,
            bundles,
        })
    }

    // What each student takes at these prices.
    fn all_bundles<R: Threads + Wait + Sync>(
        &self,
        rt: &R,
        inquiries: &mut InquiryCount,
        memory: &Option<Arc<Remembered>>,
        prices: &[Tokens],
    ) -> Result<Vec<Bundle>, NoMemory>
        requires same { IfSome memory.now
            (λ kept. crowd_of (arc_value kept) ≡ data_of (arc_value self.now.crowd.now)) }
        requires prices { ArePricesFor (data_of (arc_value self.now.crowd.now)) prices.now }
        ensures inquiries { RoseAtMost (length (data_of (arc_value self.now.crowd.now)).students)
            inquiries.old inquiries.new }
        ensures len { IfOk result
            (λ bundles. length bundles.items ≡ length (arc_value self.now.crowd.now).menus.items) }
        ensures taken { IfOk result
            (λ bundles. AreTaken (data_of (arc_value self.now.crowd.now)) prices.now
            bundles.items) }
    {
        if let Some(kept) = memory {
            return self.bundles_near(rt, inquiries, kept, prices);
        }
        let mut bundles = vec![in self.alloc; Bundle::empty(); self.crowd.menus.len()]?;
        let answers = self.ask_board(rt, inquiries, None, prices, Ask::Counts)?;
        read_all(&answers, 0, &mut bundles);
        Ok(bundles)
    }

    // What each student takes at these prices: remembered, or asked.
    fn bundles_near<R: Threads + Wait + Sync>(
        &self,
        rt: &R,
        inquiries: &mut InquiryCount,
        remembered: &Arc<Remembered>,
        prices: &[Tokens],
    ) -> Result<Vec<Bundle>, NoMemory>
        requires { ArePricesFor (crowd_of (arc_value remembered.now)) prices.now }
        ensures inquiries { RoseAtMost (length (crowd_of (arc_value remembered.now)).students)
            inquiries.old inquiries.new }
        ensures len { IfOk result
            (λ bundles. length bundles.items
            ≡ length (crowd_of (arc_value remembered.now)).students) }
        ensures taken { IfOk result
            (λ bundles. AreTaken (crowd_of (arc_value remembered.now)) prices.now bundles.items) }
    {
        let version = prices.to_vec(self.alloc)?;
        let survey = self.survey(rt, inquiries, remembered, &[version])?;
        survey.bundles_at(self.alloc, 0)
    }

    // What is found at these versions, each student asked of whom the remembered bundle is not
    // known to be right.
    fn survey<R: Threads + Wait + Sync>(
        &self,
        rt: &R,
        inquiries: &mut InquiryCount,
        remembered: &Arc<Remembered>,
        versions: &[Vec<Tokens>],
    ) -> Result<Survey, NoMemory>
        requires { AreVersionsFor (crowd_of (arc_value remembered.now)) versions.now }
        ensures inquiries { RoseAtMost
            (length versions.now * length (crowd_of (arc_value remembered.now)).students)
            inquiries.old inquiries.new }
        ensures remembered { IfOk result
            (λ survey. arc_value survey.found.inquiries.remembered
            ≡ arc_value remembered.now) }
        ensures versions { IfOk result
            (λ survey. prices_of (arc_value survey.found.inquiries.round).versions.items
            ≡ prices_of versions.now) }
    {
        let listed = inquiries_at(rt, self.alloc, self.pool.workers, remembered, versions)?;
        let found = self.inquire(rt, inquiries, listed)?;
        Survey::of(self.alloc, found)
    }
}
