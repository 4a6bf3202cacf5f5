// Prices with what each student takes at them, kept while single prices rise.
ghost use Rattle.std.specs.Prelude.{◌≡◌, ◌<◌, ◌≤◌, IfOk, IfErr, length, map, slice_set};
ghost use Rattle.bundle_rules.specs.{Bundles.sections_of, Demand.price_in};
ghost use Rattle.demand_api.specs.{Asking.ArePricesFor, Crowds.IsCrowd, Crowds.top, Crowds.holders};
ghost use Rattle.own_price.specs.{Exchanges.AreHolders, Holding.Holds};

use crate::exchange::exchange_all;
use crate::students::all_students;
use bundle_rules::Bundle;
use demand_api::{Demands, count_bundles};
use market_units::{MAX_STUDENTS, NoMemory, SectionNo, StudentNo, Tokens};
use std::alloc::Global;
use std::marker::Model;
use std::sync::Wait;
use std::thread::Threads;

/// A price for each section, what each student takes at these prices, and how many take each
/// section. When a price rises, only those who hold the section are asked again: what the others
/// hold stays the best for them.
#[derive(Drop)]
pub struct Held {
    prices: Vec<Tokens>,
    bundles: Vec<Bundle>,

    // How many of the bundles have each section.
    counts: Vec<u32>,
}

impl Model for Held {
    ghost use Rattle.std.specs.Prelude.{length, map};
    ghost use Rattle.bundle_rules.specs.Bundles.{sections_of};
    ghost use Rattle.demand_api.specs.Counting.{IsTally};
    ghost use Rattle.own_price.specs.Holding.{HeldData};

    ghost Value = { HeldData };

    ghost view = { λ held. record { prices = held.prices.items; bundles = map sections_of held.bundles.items } };

    ghost invariant = { λ held. IsTally (length held.prices.items) held.bundles.items held.counts.items };
}

impl Held {
    /// What each student takes at these prices: one for each section, each at most the top. The one
    /// error is the want of memory.
    pub fn take<R: Threads + Wait + Sync, D: Demands>(
        rt: &R,
        alloc: Global,
        demands: &mut D,
        prices: &[Tokens],
    ) -> Result<Held, NoMemory>
        requires { ArePricesFor (D.crowd demands.old) prices.now }
        ensures crowd { D.crowd demands.new ≡ D.crowd demands.old }
        ensures known { IfOk result (λ held. IsCrowd (D.crowd demands.old)) }
        ensures prices { IfOk result (λ held. held.prices ≡ prices.now) }
        ensures bundles { IfOk result (λ held. Holds (D.crowd demands.old) held) }
    {
        let students = all_students(alloc, demands.students())?;
        let bundles = demands.bundles(rt, alloc, prices, &students)?;
        let counts = count_bundles(alloc, prices.len(), &bundles)?;
        let prices = prices.to_vec(alloc)?;
        Ok(Held {
            prices,
            bundles,
            counts,
        })
    }

    /// The price of each section.
    pub fn prices(&self) -> &[Tokens]
        ensures { result.now ≡ self.now.prices }
    {
        &self.prices
    }

    /// What each student takes at the prices, in file order.
    pub fn bundles(&self) -> &[Bundle]
        ensures { map sections_of result.now ≡ self.now.bundles }
    {
        &self.bundles
    }

    /// How many students take the section, which is one of those that have a price: at most 2,000.
    pub fn count(&self, section: SectionNo) -> u32
        requires { section.0 < length self.now.prices }
        ensures value { result ≡ holders section.0 self.now.bundles }
        ensures few { result ≤ MAX_STUDENTS }
    {
        self.counts[usize::from(section.0)]
    }

    /// Raises the price of one section, up to the top at most. Only those who hold the section are
    /// asked again. For the crowd of `demands` the bundles are what the students take at the
    /// prices, before and after. Where memory is wanted, all that is held stays as it was.
    pub fn raise<R: Threads + Wait + Sync, D: Demands>(
        &mut self,
        rt: &R,
        alloc: Global,
        demands: &mut D,
        section: SectionNo,
        price: Tokens,
    ) -> Result<(), NoMemory>
        requires held { Holds (D.crowd demands.old) self.old }
        requires section { section.0 < length self.old.prices }
        requires up { price_in self.old.prices section.0 ≤ price.0 }
        requires capped { price.0 ≤ top (D.crowd demands.old) }
        ensures crowd { D.crowd demands.new ≡ D.crowd demands.old }
        ensures prices { IfOk result
            (λ done. self.new.prices ≡ slice_set self.old.prices section.0 price) }
        ensures bundles { IfOk result (λ done. Holds (D.crowd demands.old) self.new) }
        ensures unchanged { IfErr result (λ error. self.new ≡ self.old) }
    {
        let students = self.holders(alloc, section)?;
        let place = usize::from(section.0);
        let before = self.prices[place];
        self.prices[place] = price;
        match demands.bundles(rt, alloc, &self.prices, &students) {
            Ok(bundles) => {
                exchange_all(&mut self.bundles, &mut self.counts, &students, &bundles);
                Ok(())
            }
            Err(NoMemory) => {
                self.prices[place] = before;
                Err(NoMemory)
            }
        }
    }

    // The students whose bundle has the section, in file order. One pass over the bundles is little
    // beside the holders' demands, and a table of holders would want memory while bundles are
    // exchanged.
    fn holders(&self, alloc: Global, section: SectionNo) -> Result<Vec<StudentNo>, NoMemory>
        ensures { IfOk result
            (λ students. AreHolders section.0 self.now.bundles students.items) }
    {
        let mut students = Vec::new(alloc);
        for place in 0..self.bundles.len() {
            if self.bundles[place].has(section) {
                students.push(StudentNo(place as u16))?;
            }
        }
        Ok(students)
    }
}
