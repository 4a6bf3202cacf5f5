// What the price of one section does that four students want.
ghost use Rattle.std.specs.Prelude.{◌≡◌};

use crate::tests::crowds::{FOUR_RIVALS, are_bundles, crowd_of};
use bundle_rules::Bundle;
use demand_api::{Demands, PlainDemands};
use market_units::{NoMemory, SectionNo, StudentNo, Tokens};
use own_price::{Held, least_price};
use std::alloc::Global;
use std::process::Abort;
use std::sync::{Arc, Wait};
use std::test::Fail;
use std::thread::Threads;

// Plain demands that keep whom they were asked for last, how often they were asked for bundles,
// and how often for a comparison.
#[derive(Drop)]
struct Counting {
    plain: PlainDemands,
    students: Vec<StudentNo>,
    questions: u32,
    comparisons: u32,
}

impl Counting {
    fn of(alloc: Global, plain: PlainDemands) -> Self
        ensures { result.plain ≡ plain }
    {
        Counting {
            plain,
            students: Vec::new(alloc),
            questions: 0,
            comparisons: 0,
        }
    }
}

impl Demands for Counting {
    ghost crowd = { λ counting. ⟦<PlainDemands as Demands>⟧.crowd counting.plain };

    ghost asked = { λ counting. ⟦<PlainDemands as Demands>⟧.asked counting.plain };

    ghost inquiries = { λ counting. ⟦<PlainDemands as Demands>⟧.inquiries counting.plain };

    fn top(&self) -> Tokens {
        self.plain.top()
    }

    fn students(&self) -> u16 {
        self.plain.students()
    }

    fn counts<R: Threads + Wait + Sync>(
        &mut self,
        rt: &R,
        alloc: Global,
        batch: &[Vec<Tokens>],
    ) -> Result<Vec<Vec<u32>>, NoMemory> {
        self.plain.counts(rt, alloc, batch)
    }

    fn bundles<R: Threads + Wait + Sync>(
        &mut self,
        rt: &R,
        alloc: Global,
        prices: &[Tokens],
        students: &[StudentNo],
    ) -> Result<Vec<Bundle>, NoMemory> {
        self.questions = self.questions.saturating_add(1);
        let bundles = self.plain.bundles(rt, alloc, prices, students)?;
        self.students = students.to_vec(alloc)?;
        Ok(bundles)
    }

    fn exceeds<R: Threads + Wait + Sync>(
        &mut self,
        rt: &R,
        alloc: Global,
        prices: &[Tokens],
        section: SectionNo,
        limit: u32,
    ) -> Result<bool, NoMemory> {
        self.comparisons = self.comparisons.saturating_add(1);
        self.plain.exceeds(rt, alloc, prices, section, limit)
    }
}

// Of the one section these are the price and who takes it.
fn assert_held(rt: &impl Abort, held: &Held, price: u32, bundles: &[&[u16]]) {
    assert!(rt; held.prices() == [Tokens(price)].as_slice());
    assert!(rt; are_bundles(held.bundles(), bundles));
}

#[test]
fn the_least_price_is_found_by_halving(rt: HostRuntime) -> Result<(), Fail> {
    let alloc = rt.alloc();
    let crowd = crowd_of(&rt, alloc, &FOUR_RIVALS, 1);
    // The present price of the section tells nothing: the least is sought from 0.
    let prices = [Tokens(103)];
    assert!(rt; crowd.has_prices(&prices));
    let plain = PlainDemands::make(Arc::new(alloc, crowd).expect(&rt, "memory"));
    let mut demands = Counting::of(alloc, plain);
    assert_eq!(rt; demands.students(), 4);
    let three = least_price(&rt, alloc, &mut demands, &prices, SectionNo(0), 3);
    assert_eq!(rt; three.expect(&rt, "memory"), Tokens(101));
    // The top is 104, which has seven binary digits.
    assert!(rt; demands.comparisons <= 8);
    let one = least_price(&rt, alloc, &mut demands, &prices, SectionNo(0), 1);
    assert_eq!(rt; one.expect(&rt, "memory"), Tokens(103));
    let none = least_price(&rt, alloc, &mut demands, &prices, SectionNo(0), 0);
    assert_eq!(rt; none.expect(&rt, "memory"), Tokens(104));
    let all = least_price(&rt, alloc, &mut demands, &prices, SectionNo(0), 4);
    assert_eq!(rt; all.expect(&rt, "memory"), Tokens(0));
    Ok(())
}

#[test]
fn only_holders_are_asked_again(rt: HostRuntime) -> Result<(), Fail> {
    let alloc = rt.alloc();
    let crowd = crowd_of(&rt, alloc, &FOUR_RIVALS, 1);
    let prices = [Tokens(102)];
    assert!(rt; crowd.has_prices(&prices));
    assert_eq!(rt; crowd.top(), Tokens(104));
    let plain = PlainDemands::make(Arc::new(alloc, crowd).expect(&rt, "memory"));
    let mut demands = Counting::of(alloc, plain);
    assert_eq!(rt; demands.students(), 4);
    let mut held = Held::take(&rt, alloc, &mut demands, &prices).expect(&rt, "memory");
    assert_eq!(rt; demands.students.len(), 4);
    assert_held(&rt, &held, 102, &[&[], &[], &[0], &[0]]);
    assert_eq!(rt; held.count(SectionNo(0)), 2);
    let before = demands.questions;
    let raised = held.raise(&rt, alloc, &mut demands, SectionNo(0), Tokens(103));
    raised.expect(&rt, "memory");
    assert_eq!(rt; demands.questions.saturating_sub(before), 1);
    let asked = [StudentNo(2), StudentNo(3)];
    assert_eq!(rt; demands.students.as_slice(), asked.as_slice());
    assert_held(&rt, &held, 103, &[&[], &[], &[], &[0]]);
    assert_eq!(rt; held.count(SectionNo(0)), 1);
    Ok(())
}
