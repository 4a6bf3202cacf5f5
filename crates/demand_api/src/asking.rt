// What can be asked of a crowd.
ghost use Rattle.std.specs.Prelude.{◌≡◌, ◌<◌, ◌≤◌, ◌↔◌, ◌+◌, ◌*◌, ◌^◌, ℕ, IsTrue, IfOk, All};
ghost use Rattle.std.specs.Prelude.{length, map, max};
ghost use Rattle.std.specs.Thread.{IsSync};
ghost use Rattle.bundle_rules.specs.{Bundles.sections_of, Demand.price_in};
ghost use Rattle.demand_api.specs.Asking.{ArePricesFor, RoseAtMost, RoseByDigits};
ghost use Rattle.demand_api.specs.Crowds.{CrowdData, IsCrowd, top, demand_of, count, counts};
ghost use Rattle.demand_api.specs.Prices.{AreLeastPrices};
ghost use Rattle.market_units.specs.Counts.{one_more};

use bundle_rules::Bundle;
use market_units::{
    MAX_SECTIONS, MAX_STUDENTS, MAX_VERSIONS, NoMemory, SectionNo, StudentNo, Tokens,
};
use std::alloc::Global;
use std::sync::Wait;
use std::thread::Threads;

/// A crowd that is asked what it demands. Whoever implements this may use any method: each answer
/// is fixed by the crowd and the prices. A vector of prices has one price for each section, each at
/// most the top. Besides its value, a call can only answer that memory was wanted. That threads may
/// share `rt`, which the bound `Sync` says, is a clause beside it: in a trait's method the bound
/// alone tells a body nothing.
pub trait Demands {
    /// The crowd, which no call changes.
    ghost crowd: { Self → CrowdData };

    /// How many calls of `counts`, `bundles` and `exceeds` were made, up to the greatest `u64`.
    ghost asked: { Self → ℕ };

    /// How many students were asked what they take, over all calls, up to the greatest `u64`; who is
    /// asked twice is counted twice. As with `asked`, the number is what the implementor says it is.
    ghost inquiries: { Self → ℕ };

    /// The top price: one more than the greatest budget, and 1 without students.
    fn top(&self) -> Tokens
        ensures value { result.0 ≡ top (crowd self.now) }
        ensures crowd { IsCrowd (crowd self.now) };

    /// The number of students, at most 2,000.
    fn students(&self) -> u16
        ensures value { result ≡ length (crowd self.now).students }
        ensures crowd { IsCrowd (crowd self.now) };

    /// How many students take each section, at each of 1 to 16 vectors of prices. Each student is
    /// asked at most once at each, and once more.
    fn counts<R: Threads + Wait + Sync>(
        &mut self,
        rt: &R,
        alloc: Global,
        batch: &[Vec<Tokens>],
    ) -> Result<Vec<Vec<u32>>, NoMemory>
        requires sync { IsSync R.row }
        requires some { 1 ≤ length batch.now }
        requires few { length batch.now ≤ MAX_VERSIONS }
        requires prices { All (λ prices. ArePricesFor (crowd self.old) prices.items) batch.now }
        ensures crowd { crowd self.new ≡ crowd self.old }
        ensures asked { asked self.new ≡ one_more (asked self.old) }
        ensures inquiries { RoseAtMost
            ((length batch.now + 1) * length (crowd self.old).students) (inquiries self.old)
            (inquiries self.new) }
        ensures value { IfOk result (λ found. map (λ counts. counts.items) found.items ≡ map (λ prices. counts (crowd self.old) (price_in prices.items)) batch.now) };

    /// Tells at which vectors counts will be asked for next, in their order. Neither the crowd nor
    /// the number of calls changes, and each student is asked at most once at each vector, and once
    /// more. Who asks at all of them in one round can answer those calls from what it found. The
    /// provided body does nothing.
    fn foresee<R: Threads + Wait + Sync>(
        &mut self,
        _rt: &R,
        _alloc: Global,
        _vectors: &[Vec<Tokens>],
    ) -> Result<(), NoMemory>
        requires sync { IsSync R.row }
        requires prices { All (λ prices. ArePricesFor (crowd self.old) prices.items) _vectors.now }
        ensures crowd { crowd self.new ≡ crowd self.old }
        ensures asked { asked self.new ≡ asked self.old }
        ensures inquiries { RoseAtMost
            ((length _vectors.now + 1) * length (crowd self.old).students) (inquiries self.old)
            (inquiries self.new) }
    {
        Ok(())
    }

    /// What each of at most 2,000 students takes, in the order of the list. At most as many students
    /// are asked as are listed, or as there are, whichever is more.
    fn bundles<R: Threads + Wait + Sync>(
        &mut self,
        rt: &R,
        alloc: Global,
        prices: &[Tokens],
        students: &[StudentNo],
    ) -> Result<Vec<Bundle>, NoMemory>
        requires sync { IsSync R.row }
        requires prices { ArePricesFor (crowd self.old) prices.now }
        requires few { length students.now ≤ MAX_STUDENTS }
        requires range { All (λ student. student.0 < length (crowd self.old).students)
            students.now }
        ensures crowd { crowd self.new ≡ crowd self.old }
        ensures asked { asked self.new ≡ one_more (asked self.old) }
        ensures inquiries { RoseAtMost
            (max (length students.now) (length (crowd self.old).students)) (inquiries self.old)
            (inquiries self.new) }
        ensures value { IfOk result (λ bundles. map sections_of bundles.items ≡ map (λ student. demand_of (crowd self.old) (price_in prices.now) student.0) students.now) };

    /// Whether more than `limit` students take the section. Each student is asked at most once.
    fn exceeds<R: Threads + Wait + Sync>(
        &mut self,
        rt: &R,
        alloc: Global,
        prices: &[Tokens],
        section: SectionNo,
        limit: u32,
    ) -> Result<bool, NoMemory>
        requires sync { IsSync R.row }
        requires prices { ArePricesFor (crowd self.old) prices.now }
        requires section { section.0 < (crowd self.old).sections }
        ensures crowd { crowd self.new ≡ crowd self.old }
        ensures asked { asked self.new ≡ one_more (asked self.old) }
        ensures inquiries { RoseAtMost (length (crowd self.old).students) (inquiries self.old)
            (inquiries self.new) }
        ensures value { IfOk result (λ more. IsTrue more ↔ (limit < count (crowd self.old) (price_in prices.now) section.0)) };

    /// For each of at most 400 pairs of a section and a limit the least price of the section, from
    /// its present one up, at which at most that many students take it, the other prices as given.
    /// The number of calls made does not fall, and rises at most by the binary digits of the top,
    /// and one more, for each pair; that of students asked at most by twice these digits, and one
    /// more, for each pair and student. The provided body halves; who knows the students' other
    /// choices can answer from them.
    fn least_prices<R: Threads + Wait + Sync>(
        &mut self,
        rt: &R,
        alloc: Global,
        prices: &[Tokens],
        pairs: &[(SectionNo, u32)],
    ) -> Result<Vec<Tokens>, NoMemory>
        requires sync { IsSync R.row }
        requires prices { ArePricesFor (crowd self.old) prices.now }
        requires few { length pairs.now ≤ MAX_SECTIONS }
        requires sections { All (λ pair. pair.0.0 < (crowd self.old).sections) pairs.now }
        ensures crowd { crowd self.new ≡ crowd self.old }
        ensures asked { RoseByDigits (length pairs.now) (top (crowd self.old)) (asked self.old)
            (asked self.new) }
        ensures inquiries { (digits : ℕ) → top (crowd self.old) < 2 ^ digits
            → RoseAtMost
            (length pairs.now * length (crowd self.old).students * (2 * digits + 1))
            (inquiries self.old) (inquiries self.new) }
        ensures value { IfOk result
            (λ least. AreLeastPrices (crowd self.old) (price_in prices.now) pairs.now least.items) }
    {
        let mut found = Vec::new(alloc);
        let mut trial = prices.to_vec(alloc)?;
        for (section, limit) in pairs {
            let place = usize::from(section.0);
            let mut low = prices[place].0;
            let mut high = self.top().0;
            while low < high {
                let middle = low + (high - low) / 2;
                trial[place] = Tokens(middle);
                if self.exceeds(rt, alloc, &trial, *section, *limit)? {
                    low = middle + 1;
                } else {
                    high = middle;
                }
            }
            trial[place] = prices[place];
            found.push(Tokens(low))?;
        }
        Ok(found)
    }
}
