// Walks to least prices, by what is noted or asked.
ghost use Rattle.std.specs.Prelude.{◌≡◌, ◌<◌, ◌≤◌, ◌+◌, ◌*◌, ◌^◌, ℕ, [], ◌∷◌, All, IfOk};
ghost use Rattle.std.specs.Prelude.{IfSome, Some, length, slice_set};
ghost use Rattle.std.specs.Arc.{arc_value};
ghost use Rattle.bundle_rules.specs.Bundles.{sections_of};
ghost use Rattle.demand_api.specs.{Asking.RoseAtMost, Crowds.count, Crowds.top};
ghost use Rattle.demand_api.specs.Prices.{AreLeastPrices, IsLeastFrom, with_price};
ghost use Rattle.demand_workers.specs.Allowances.{HasSpent};
ghost use Rattle.price_board.specs.Tasks.{IsTask, taken_at};
ghost use Rattle.demand_workers.specs.Leaving.{AreLeft};
ghost use Rattle.demand_workers.specs.{Remembered.AreTaken, Rounds.prices_of};
ghost use Rattle.demand_workers.specs.{Surveys.AreOthersKept, Found.tasks_of};
ghost use Rattle.demand_workers.specs.Views.{crowd_of, price_before};

use crate::asker::Asker;
use crate::inquiry::Inquiries;
use crate::leaving::{Holder, WalkEnd, holder_of, holders_by_section, holders_of};
use crate::notes::Notes;
use crate::pooled_demands::InquiryCount;
use crate::question::Question;
use crate::remembered::Remembered;
use crate::settled::settled;
use crate::trial::{ROOM, raised_prices};
use crate::unsettled::write_found;
use bundle_rules::Bundle;
use market_edge::AnyGate;
use market_units::{MAX_PRICE, NoMemory, SectionNo, StudentNo, Tokens};
use price_board::Task;
use std::alloc::Global;
use std::collections::BinaryHeap;
use std::sync::{Arc, Wait};
use std::thread::Threads;

// These inquiries at the remembered prices, of which so many best bundles are noted.
fn at_remembered(
    alloc: Global,
    remembered: &Arc<Remembered>,
    list: Vec<Task>,
    kept: usize,
) -> Result<Inquiries, NoMemory>
    requires some { (1 ≤ kept) × (kept ≤ 8) }
    requires inquiries { All (IsTask (crowd_of (arc_value remembered.now)) 1) list.items }
    ensures remembered { IfOk result
        (λ inquiries. arc_value inquiries.remembered ≡ arc_value remembered.now) }
    ensures versions { IfOk result
        (λ inquiries. prices_of (arc_value inquiries.round).versions.items
        ≡ (arc_value remembered.now).prices.items ∷ []) }
    ensures list { IfOk result (λ inquiries. (tasks_of inquiries) ≡ list.items) }
{
    let prices = remembered.prices.as_slice().to_vec(alloc)?;
    let mut versions = Vec::with_capacity(alloc, 1)?;
    versions.push(prices)?;
    let inquiries = Inquiries::of(alloc, remembered, versions, list, kept)?;
    Ok(inquiries)
}

impl Asker<'_, AnyGate<'_>> {
    /// For each pair of a section and a limit the least price of the section from its remembered
    /// one up at which at most so many students take it, the other prices as remembered. Walks ask
    /// those who are left, each pair's walk no more than its share; where nobody is, a round asks
    /// all, for each digit of the top at most. The only error is that memory was not given.
    pub(crate) fn least_for_each<R: Threads + Wait + Sync>(
        &self,
        rt: &R,
        inquiries: &mut InquiryCount,
        notes: &mut Notes,
        pairs: &[(SectionNo, u32)],
        left: &mut u64,
    ) -> Result<Vec<Tokens>, NoMemory>
        requires sections { All
            (λ pair. pair.0.0 < (arc_value (arc_value notes.old.remembered).crowd).sections)
            pairs.now }
        ensures inquiries { (digits : ℕ)
            → top (crowd_of (arc_value notes.old.remembered)) < 2 ^ digits
            → HasSpent
            (length pairs.now
            * (digits * length (crowd_of (arc_value notes.old.remembered)).students))
            left.old left.new inquiries.old inquiries.new }
        ensures same { IfOk result (λ found. notes.new.remembered ≡ notes.old.remembered) }
        ensures least { IfOk result
            (λ found. AreLeastPrices (crowd_of (arc_value notes.old.remembered))
            (price_before (arc_value notes.old.remembered)) pairs.now found.items) }
    {
        let lists = holders_by_section(self.alloc, &notes.remembered)?;
        let mut found = Vec::new(self.alloc);
        for place in 0..pairs.len() {
            let pair = pairs[place];
            let list = &lists[usize::from(pair.0.0)];
            let mut share = *left / (pairs.len() - place) as u64;
            *left -= share;
            let least = self.least_price(rt, inquiries, notes, pair, list, &mut share)?;
            *left += share;
            found.push(least)?;
        }
        Ok(found)
    }

    // The walk to the least price of a section for one limit, from all who hold it. As long as
    // these are too many, the first of them to leave is asked at the price from which it does not
    // keep what it holds: it holds the section from then on up to another price, or leaves. Where
    // nobody may be asked any more, the rest is found by halving, so that no crowd makes a walk
    // long.
    fn least_price<R: Threads + Wait + Sync>(
        &self,
        rt: &R,
        inquiries: &mut InquiryCount,
        notes: &mut Notes,
        pair: (SectionNo, u32),
        list: &[Holder],
        left: &mut u64,
    ) -> Result<Tokens, NoMemory>
        requires section { pair.0.0
            < (arc_value (arc_value notes.old.remembered).crowd).sections }
        requires list { AreLeft (crowd_of (arc_value notes.old.remembered))
            (price_before (arc_value notes.old.remembered)) pair.0.0
            (price_before (arc_value notes.old.remembered) pair.0.0) list.now }
        ensures inquiries { (digits : ℕ)
            → top (crowd_of (arc_value notes.old.remembered)) < 2 ^ digits
            → HasSpent (digits * length (crowd_of (arc_value notes.old.remembered)).students)
            left.old left.new inquiries.old inquiries.new }
        ensures same { IfOk result (λ least. notes.new.remembered ≡ notes.old.remembered) }
        ensures high { IfOk result
            (λ least. least.0 ≤ top (crowd_of (arc_value notes.old.remembered))) }
        ensures least { IfOk result
            (λ least. IsLeastFrom (price_before (arc_value notes.old.remembered) pair.0.0)
            (crowd_of (arc_value notes.old.remembered))
            (price_before (arc_value notes.old.remembered)) pair.0.0 pair.1 least.0) }
    {
        let (section, limit) = pair;
        let remembered = Arc::try_clone(&notes.remembered)?;
        let known: &Remembered = &remembered;
        let mut least = known.prices[usize::from(section.0)];
        let mut room = [Tokens(0); ROOM];
        let mut holders = BinaryHeap::from(list.to_vec(self.alloc)?);
        while holders.len() > limit as usize {
            let Some(first) = holders.pop() else {
                unreachable!();
            };
            least = Tokens(MAX_PRICE - first.0);
            let student = StudentNo(first.1);
            let inquiry = Task {
                student,
                version: 0,
                raised: Some((section, least)),
            };
            let told = self.told_or_asked(rt, inquiries, notes, inquiry, left)?;
            let Some(bundle) = told else {
                return self.halved(rt, inquiries, known, pair, least);
            };
            if !bundle.has(section) {
                continue;
            }
            let trial = raised_prices(&mut room, &known.prices, section, least);
            let question = Question {
                remembered: known,
                prices: trial,
                student,
            };
            let holder = holder_of(&question, section, &bundle);
            holders.push(holder)?;
        }
        Ok(least)
    }

    // The walk's least price, where it is known that the section has too many takers below this
    // one: found by halving what is between this price and the top, where nobody takes it.
    fn halved<R: Threads + Wait + Sync>(
        &self,
        rt: &R,
        inquiries: &mut InquiryCount,
        known: &Remembered,
        pair: (SectionNo, u32),
        from: Tokens,
    ) -> Result<Tokens, NoMemory>
        requires section { pair.0.0 < (arc_value known.now.crowd).sections }
        requires low { price_before known.now pair.0.0 ≤ from.0 }
        requires high { from.0 ≤ top (crowd_of known.now) }
        requires lower { (p : ℕ) → price_before known.now pair.0.0 ≤ p → p < from.0
            → pair.1
            < count (crowd_of known.now) (with_price (price_before known.now) pair.0.0 p)
            pair.0.0 }
        ensures inquiries { (digits : ℕ) → top (crowd_of known.now) < 2 ^ digits
            → RoseAtMost (digits * length (crowd_of known.now).students) inquiries.old
            inquiries.new }
        ensures high { IfOk result (λ least. least.0 ≤ top (crowd_of known.now)) }
        ensures least { IfOk result
            (λ least. IsLeastFrom (price_before known.now pair.0.0) (crowd_of known.now)
            (price_before known.now) pair.0.0 pair.1 least.0) }
    {
        let (section, limit) = pair;
        // Whom this asks is the crowd as it is remembered, which is the same.
        let asker = Asker {
            alloc: self.alloc,
            crowd: &known.crowd,
            pool: self.pool,
            gate: self.gate,
        };
        let mut trial = known.prices.as_slice().to_vec(self.alloc)?;
        let place = usize::from(section.0);
        let mut low = from.0;
        let mut high = known.crowd.top().0;
        while low < high {
            let middle = low + (high - low) / 2;
            trial[place] = Tokens(middle);
            if asker.is_exceeded(rt, inquiries, Some(known), &trial, section, limit)? {
                low = middle + 1;
            } else {
                high = middle;
            }
        }
        Ok(Tokens(low))
    }

    // What the student of an inquiry takes at the remembered prices with the raised one: noted, or
    // asked alone; `None` where it is not noted, and nobody may be asked any more.
    fn told_or_asked<R: Threads + Wait + Sync>(
        &self,
        rt: &R,
        inquiries: &mut InquiryCount,
        notes: &mut Notes,
        inquiry: Task,
        left: &mut u64,
    ) -> Result<Option<Bundle>, NoMemory>
        requires inquiry { IsTask (crowd_of (arc_value notes.old.remembered)) 1 inquiry }
        ensures inquiries { HasSpent 0 left.old left.new inquiries.old inquiries.new }
        ensures same { IfOk result (λ told. notes.new.remembered ≡ notes.old.remembered) }
        ensures taken { IfOk result (λ told. IfSome told
            (λ bundle. sections_of bundle
            ≡ taken_at (crowd_of (arc_value notes.old.remembered))
            ((arc_value notes.old.remembered).prices.items ∷ []) inquiry)) }
    {
        let told = notes.told_at(inquiry);
        if told.is_some() {
            return Ok(told);
        }
        if *left == 0 {
            return Ok(None);
        }
        *left -= 1;
        let bundle = self.asked_alone(rt, inquiries, notes, inquiry)?;
        Ok(Some(bundle))
    }

    // What the student of an inquiry takes there, asked in a round of its own, and noted.
    fn asked_alone<R: Threads + Wait + Sync>(
        &self,
        rt: &R,
        inquiries: &mut InquiryCount,
        notes: &mut Notes,
        inquiry: Task,
    ) -> Result<Bundle, NoMemory>
        requires { IsTask (crowd_of (arc_value notes.old.remembered)) 1 inquiry }
        ensures inquiries { RoseAtMost 1 inquiries.old inquiries.new }
        ensures same { IfOk result (λ bundle. notes.new.remembered ≡ notes.old.remembered) }
        ensures taken { IfOk result
            (λ bundle. sections_of bundle
            ≡ taken_at (crowd_of (arc_value notes.old.remembered))
            ((arc_value notes.old.remembered).prices.items ∷ []) inquiry) }
    {
        let list = vec![in self.alloc; inquiry; 1]?;
        let listed = at_remembered(self.alloc, &notes.remembered, list, notes.kept)?;
        let found = self.inquire(rt, inquiries, listed)?;
        if let Some(note) = found.note {
            notes.add(note)?;
        }
        Ok(found.bundles[0])
    }

    /// The walk of one pair, from all who hold its section, and what is taken at the least price:
    /// who raises the price asks for that next. The only error is that memory was not given.
    pub(crate) fn raised<R: Threads + Wait + Sync>(
        &self,
        rt: &R,
        inquiries: &mut InquiryCount,
        notes: &mut Notes,
        pair: (SectionNo, u32),
        left: &mut u64,
    ) -> Result<(Tokens, Remembered), NoMemory>
        requires { pair.0.0 < (arc_value (arc_value notes.old.remembered).crowd).sections }
        ensures inquiries { (digits : ℕ)
            → top (crowd_of (arc_value notes.old.remembered)) < 2 ^ digits
            → HasSpent
            ((digits + 1) * length (crowd_of (arc_value notes.old.remembered)).students)
            left.old left.new inquiries.old inquiries.new }
        ensures same { IfOk result (λ raised. notes.new.remembered ≡ notes.old.remembered) }
        ensures least { IfOk result
            (λ raised. IsLeastFrom (price_before (arc_value notes.old.remembered) pair.0.0)
            (crowd_of (arc_value notes.old.remembered))
            (price_before (arc_value notes.old.remembered)) pair.0.0 pair.1 raised.0.0) }
        ensures crowd { IfOk result
            (λ raised. crowd_of raised.1 ≡ crowd_of (arc_value notes.old.remembered)) }
    {
        let holders = holders_of(self.alloc, &notes.remembered, pair.0)?;
        let least = self.least_price(rt, inquiries, notes, pair, &holders, left)?;
        let walk = WalkEnd {
            notes: &*notes,
            section: pair.0,
            least,
        };
        let memory = self.raised_memory(rt, inquiries, &walk, &holders)?;
        Ok((least, memory))
    }

    // What each student takes at the remembered prices with the section at the least price of a
    // walk from these holders. Who does not hold the section keeps what it takes, and so does a
    // holder that can still pay. A student of whom it is noted is not asked. Whom this does not
    // settle is asked. The only error is that memory was not given.
    fn raised_memory<R: Threads + Wait + Sync>(
        &self,
        rt: &R,
        inquiries: &mut InquiryCount,
        walk: &WalkEnd,
        holders: &[Holder],
    ) -> Result<Remembered, NoMemory>
        requires { AreLeft (crowd_of (arc_value walk.now.notes.now.remembered))
            (price_before (arc_value walk.now.notes.now.remembered)) walk.now.section.0
            (price_before (arc_value walk.now.notes.now.remembered) walk.now.section.0) holders.now }
        ensures inquiries { RoseAtMost
            (length (crowd_of (arc_value walk.now.notes.now.remembered)).students) inquiries.old
            inquiries.new }
        ensures crowd { IfOk result
            (λ memory. crowd_of memory ≡ crowd_of (arc_value walk.now.notes.now.remembered)) }
    {
        let remembered: &Remembered = &walk.notes.remembered;
        let mut prices = remembered.prices.as_slice().to_vec(self.alloc)?;
        prices[usize::from(walk.section.0)] = walk.least;
        let mut bundles = remembered.bundles.as_slice().to_vec(self.alloc)?;
        let mut list = Vec::new(self.alloc);
        for place in 0..holders.len() {
            let student = StudentNo(holders[place].1);
            let Some(bundle) = settled(walk, &prices, student) else {
                list.push(Task {
                    student,
                    version: 0,
                    raised: Some((walk.section, walk.least)),
                })?;
                continue;
            };
            bundles[usize::from(student.0)] = bundle;
        }
        self.write_asked(rt, inquiries, walk, &prices, list, &mut bundles)?;
        Ok(Remembered {
            crowd: Arc::try_clone(&remembered.crowd)?,
            allowed: remembered.allowed,
            prices,
            bundles,
        })
    }

    // Asks these at the raised prices, and writes what they take. Mostly nobody has to be asked, and
    // then no round is started.
    fn write_asked<R: Threads + Wait + Sync>(
        &self,
        rt: &R,
        inquiries: &mut InquiryCount,
        walk: &WalkEnd,
        prices: &[Tokens],
        list: Vec<Task>,
        bundles: &mut [Bundle],
    ) -> Result<(), NoMemory>
        requires prices { prices.now
            ≡ slice_set (arc_value walk.now.notes.now.remembered).prices.items walk.now.section.0
            walk.now.least }
        requires each { length bundles.old
            ≡ length (crowd_of (arc_value walk.now.notes.now.remembered)).students }
        requires asked { All (IsTask (crowd_of (arc_value walk.now.notes.now.remembered)) 1) list.items }
        requires raised { All
            (λ inquiry. inquiry.raised ≡ Some (walk.now.section, walk.now.least)) list.items }
        requires others { AreOthersKept (crowd_of (arc_value walk.now.notes.now.remembered)) bundles.old
            prices.now 0 list.items }
        ensures inquiries { RoseAtMost (length list.items) inquiries.old inquiries.new }
        ensures len { length bundles.new ≡ length bundles.old }
        ensures taken { IfOk result
            (λ done. AreTaken (crowd_of (arc_value walk.now.notes.now.remembered)) prices.now bundles.new) }
    {
        if list.is_empty() {
            return Ok(());
        }
        let listed = at_remembered(self.alloc, &walk.notes.remembered, list, 1)?;
        let found = self.inquire(rt, inquiries, listed)?;
        let crowd = &walk.notes.remembered.crowd;
        let asked = found.inquiries.list();
        write_found(crowd, prices, asked, &found.bundles, 0, bundles);
        Ok(())
    }
}
