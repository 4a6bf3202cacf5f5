// Demands that are found by trying every choice.
use crate::tests::menus::{menu_of, rated};
use crate::tests::rivals::rivals;
use crate::tests::workers::{all_have_prices, at};
use bundle_rules::Bundle;
use demand_api::{Crowd, Demands, PlainDemands};
use market_units::{MAX_VERSIONS, SectionNo, StudentNo, Tokens};
use std::alloc::Global;
use std::process::Abort;
use std::sync::{Arc, Wait};
use std::test::Fail;
use std::thread::Threads;

// How many students take each section at each of these vectors.
fn counts_of<R: Abort + Threads + Wait + Sync>(
    rt: &R,
    alloc: Global,
    crowd: Crowd,
    batch: &[Vec<Tokens>],
) -> Vec<Vec<u32>> {
    assert!(rt; 1 <= batch.len() && batch.len() <= MAX_VERSIONS);
    assert!(rt; all_have_prices(&crowd, batch));
    let crowd = Arc::new(alloc, crowd).expect(rt, "memory");
    let mut demands = PlainDemands::make(crowd);
    demands.counts(rt, alloc, batch).expect(rt, "memory")
}

#[test]
fn counts_of_four_students(rt: HostRuntime) -> Result<(), Fail> {
    let alloc = rt.alloc();
    let crowd = rivals(&rt, alloc, 4);
    assert_eq!(rt; crowd.top(), Tokens(104));
    let batch = [
        at(alloc, 104)?,
        at(alloc, 102)?,
        at(alloc, 103)?,
        at(alloc, 0)?,
    ];
    let found = counts_of(&rt, alloc, crowd, &batch);
    let wanted = [0, 2, 1, 4];
    assert_eq!(rt; found.len(), 4);
    for place in 0..4 {
        assert_eq!(rt; found[place].as_slice(), [wanted[place]].as_slice());
    }
    Ok(())
}

#[test]
fn bundles_of_four_students(rt: HostRuntime) -> Result<(), Fail> {
    let alloc = rt.alloc();
    let crowd = rivals(&rt, alloc, 4);
    let prices = [Tokens(102)];
    assert!(rt; crowd.has_prices(&prices));
    let crowd = Arc::new(alloc, crowd).expect(&rt, "memory");
    let mut demands = PlainDemands::make(crowd);
    assert_eq!(rt; demands.students(), 4);
    // The last student, the first, and the third twice.
    let asked = [StudentNo(3), StudentNo(0), StudentNo(2), StudentNo(2)];
    let found = demands
        .bundles(&rt, alloc, &prices, &asked)
        .expect(&rt, "memory");
    let wanted = [true, false, true, true];
    assert_eq!(rt; found.len(), 4);
    for place in 0..4 {
        assert_eq!(rt; found[place].has(SectionNo(0)), wanted[place]);
    }
    // Two students take the section: more than one, and not more than two.
    let above_one = demands.exceeds(&rt, alloc, &prices, SectionNo(0), 1);
    assert!(rt; above_one.expect(&rt, "memory"));
    let above_two = demands.exceeds(&rt, alloc, &prices, SectionNo(0), 2);
    assert!(rt; !above_two.expect(&rt, "memory"));
    Ok(())
}

#[test]
fn least_prices_of_four_students(rt: HostRuntime) -> Result<(), Fail> {
    let alloc = rt.alloc();
    let crowd = rivals(&rt, alloc, 4);
    let prices = [Tokens(50)];
    assert!(rt; crowd.has_prices(&prices));
    let crowd = Arc::new(alloc, crowd).expect(&rt, "memory");
    let mut demands = PlainDemands::make(crowd);
    let section = SectionNo(0);
    // From the present price up: no price below 50, though four students take the section there
    // too.
    let pairs = [(section, 2), (section, 4), (section, 0), (section, 1)];
    let found = demands
        .least_prices(&rt, alloc, &prices, &pairs)
        .expect(&rt, "memory");
    let wanted = [102, 50, 104, 103];
    assert_eq!(rt; found.len(), 4);
    for place in 0..4 {
        assert_eq!(rt; found[place], Tokens(wanted[place]));
    }
    Ok(())
}

#[test]
fn students_are_chosen_in_the_given_order(rt: HostRuntime) -> Result<(), Fail> {
    let alloc = rt.alloc();
    let crowd = rivals(&rt, alloc, 4);
    assert_eq!(rt; crowd.menus.len(), 4);
    let students = [StudentNo(2), StudentNo(0), StudentNo(2)];
    let chosen = crowd.choose(alloc, &students).expect(&rt, "memory");
    let wanted = [Tokens(102), Tokens(100), Tokens(102)];
    assert_eq!(rt; chosen.budgets.as_slice(), wanted.as_slice());
    assert_eq!(rt; chosen.menus.len(), 3);
    assert_eq!(rt; chosen.sections, 1);
    Ok(())
}

// Three students of the ordinary term, whose first section and fourth clash.
fn ordinary_term<R: Abort>(rt: &R, alloc: Global) -> Crowd {
    let ann = [rated(0, 0, 60, 1), rated(1, 1, 30, 1)];
    let bob = [rated(0, 0, 50, 1), rated(2, 2, 40, 1)];
    let cat = [rated(0, 0, 20, 1), rated(3, 0, 45, 1)];
    let menus = vec![in alloc;
        menu_of(rt, alloc, &ann, &[], &[0, 0], (10, 2)),
        menu_of(rt, alloc, &bob, &[(0, 1, 10)], &[0, 0], (10, 2)),
        menu_of(rt, alloc, &cat, &[], &[2, 1], (10, 2)),
    ];
    let menus = menus.expect(rt, "memory");
    let budgets = vec![in alloc; Tokens(104), Tokens(103), Tokens(102)].expect(rt, "memory");
    Crowd::of(menus, budgets, 4).expect(rt, "a crowd")
}

#[test]
fn the_ordinary_term_at_its_last_prices(rt: HostRuntime) -> Result<(), Fail> {
    let alloc = rt.alloc();
    let crowd = ordinary_term(&rt, alloc);
    let prices = [Tokens(104), Tokens(0), Tokens(0), Tokens(0)];
    assert!(rt; crowd.has_prices(&prices));
    let crowd = Arc::new(alloc, crowd).expect(&rt, "memory");
    let mut demands = PlainDemands::make(crowd);
    assert_eq!(rt; demands.students(), 3);
    let students = [StudentNo(0), StudentNo(1), StudentNo(2)];
    let found = demands
        .bundles(&rt, alloc, &prices, &students)
        .expect(&rt, "memory");
    let wanted = [
        Bundle::of(&[SectionNo(0), SectionNo(1)]),
        Bundle::of(&[SectionNo(2)]),
        Bundle::of(&[SectionNo(3)]),
    ];
    assert_eq!(rt; found.len(), 3);
    for place in 0..3 {
        assert!(rt; Some(found[place]) == wanted[place]);
    }
    Ok(())
}
