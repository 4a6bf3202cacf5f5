// Searches over small crowds, with one seat for each section.
use crate::tests::crowds::{ONE_WISH, Student, crowd_of};
use demand_api::{Crowd, PlainDemands};
use market_settings::{Settings, StepSizes, are_step_sizes};
use std::alloc::Global;
use std::process::Abort;
use std::sync::{Arc, Wait};
use std::test::Fail;
use std::thread::Threads;
use tabu_search::{Found, SearchEnd, search};

/// Settings of a search: the seed, the accepted error, the turns, the tabu window, the patience,
/// and the steps.
pub(crate) fn settings_of<R: Abort>(
    rt: &R,
    alloc: Global,
    numbers: [u32; 5],
    steps: &[u32],
) -> Settings {
    let [seed, accept, turns, tabu, patience] = numbers;
    assert!(rt; are_step_sizes(steps));
    Settings {
        seed: u64::from(seed),
        spread: 0,
        accept: u64::from(accept),
        turns,
        tabu,
        patience,
        steps: StepSizes::from_vec(steps.to_vec(alloc).expect(rt, "memory")),
        raise: 10,
    }
}

fn searched<R: Abort + Threads + Wait + Sync>(
    rt: &R,
    alloc: Global,
    crowd: Crowd,
    settings: &Settings,
) -> Result<Found, SearchEnd> {
    let seats = vec![in alloc; 1u16; usize::from(crowd.sections)].expect(rt, "memory");
    let mut demands = PlainDemands::make(Arc::new(alloc, crowd).expect(rt, "memory"));
    search(rt, alloc, &mut demands, &seats, settings)
}

// What such a search finds: the prices and their error, or why there are none. It gives the turns
// that were made.
fn try_search<R: Abort + Threads + Wait + Sync>(
    rt: &R,
    alloc: Global,
    crowd: Crowd,
    numbers: [u32; 5],
    steps: &[u32],
    wanted: &str,
) -> Result<u32, Fail> {
    let settings = settings_of(rt, alloc, numbers, steps);
    let (told, turns) = match searched(rt, alloc, crowd, &settings) {
        Ok(found) => {
            let prices = found.prices.as_slice();
            let error = found.error;
            (format!(in alloc; "{prices:?} {error}")?, found.turns)
        }
        Err(end) => (format!(in alloc; "{end:?}")?, 0),
    };
    assert_eq!(rt; told.as_str(), wanted);
    Ok(turns)
}

const TWO_RIVALS: [Student<'static>; 2] = [
    (100, 1, ONE_WISH, &[], &[0]),
    (105, 1, ONE_WISH, &[], &[0]),
];

#[test]
fn a_search_moves(rt: HostRuntime) -> Result<(), Fail> {
    let alloc = rt.alloc();
    let crowd = crowd_of(&rt, alloc, &TWO_RIVALS, 1);
    // The zero vector has error 1. Price 1 is tabu, and 101 clears the market.
    let turns = try_search(&rt, alloc, crowd, [0, 0, 3, 5, 3], &[1], "[Tokens(101)] 0")?;
    assert_eq!(rt; turns, 1);
    Ok(())
}

#[test]
fn no_turn_is_made(rt: HostRuntime) -> Result<(), Fail> {
    let alloc = rt.alloc();
    let crowd = crowd_of(&rt, alloc, &TWO_RIVALS, 1);
    let none = "NoPrices { least: 1 }";
    try_search(&rt, alloc, crowd, [0, 0, 0, 5, 3], &[1], none)?;
    // An error of 1 is accepted where it may be 1.
    let crowd = crowd_of(&rt, alloc, &TWO_RIVALS, 1);
    try_search(&rt, alloc, crowd, [0, 1, 0, 5, 3], &[1], "[Tokens(0)] 1")?;
    Ok(())
}

#[test]
fn nobody_searches(rt: HostRuntime) -> Result<(), Fail> {
    let alloc = rt.alloc();
    let crowd = crowd_of(&rt, alloc, &[], 2);
    let free = "[Tokens(0), Tokens(0)] 0";
    let turns = try_search(&rt, alloc, crowd, [0, 0, 3, 5, 3], &[1], free)?;
    assert_eq!(rt; turns, 0);
    Ok(())
}

// Four students of three sections.
const FOUR_STUDENTS: [Student<'static>; 4] = [
    (100, 2, &[(0, 0, 50), (1, 1, 40)], &[], &[0; 2]),
    (103, 2, &[(0, 0, 50), (2, 2, 45)], &[], &[0; 2]),
    (103, 2, &[(1, 1, 50), (2, 2, 20)], &[], &[0; 2]),
    (106, 2, &[(0, 0, 60), (1, 1, 61)], &[(0, 1, -30)], &[0; 2]),
];

#[test]
fn restarts_draw_prices(rt: HostRuntime) -> Result<(), Fail> {
    let alloc = rt.alloc();
    let crowd = crowd_of(&rt, alloc, &FOUR_STUDENTS, 3);
    let prices = "[Tokens(80), Tokens(104), Tokens(40)] 1";
    try_search(&rt, alloc, crowd, [5, 1, 60, 2, 1], &[40], prices)?;
    Ok(())
}

// Four students of one budget who each may take one of two sections; two of them rate both.
const FOUR_OF_ONE_BUDGET: [Student<'static>; 4] = [
    (100, 1, &[(0, 0, 50), (1, 1, 2)], &[], &[0; 2]),
    (100, 1, &[(0, 0, 50), (1, 1, 2)], &[], &[0; 2]),
    (100, 1, ONE_WISH, &[], &[0]),
    (100, 1, ONE_WISH, &[], &[0]),
];

#[test]
fn no_prices_after_restarts(rt: HostRuntime) -> Result<(), Fail> {
    let alloc = rt.alloc();
    let crowd = crowd_of(&rt, alloc, &FOUR_OF_ONE_BUDGET, 2);
    let none = "NoPrices { least: 2 }";
    try_search(&rt, alloc, crowd, [3, 0, 30, 1, 1], &[7, 1], none)?;
    Ok(())
}

// Two students of budget 9: one wants the second section, the other both, the first one more.
const TWO_SECTIONS: [Student<'static>; 2] = [
    (9, 1, &[(1, 1, 40)], &[], &[0]),
    (9, 2, &[(0, 0, 90), (1, 1, 40)], &[], &[0; 2]),
];

// A window of four counts leads out of the circle in which one alone is caught. What is wanted was
// told by a plain program of the whole market, of another hand and without proofs, for this market
// with either window.
#[test]
fn a_tabu_candidate_is_passed_over(rt: HostRuntime) -> Result<(), Fail> {
    let alloc = rt.alloc();
    let crowd = crowd_of(&rt, alloc, &TWO_SECTIONS, 2);
    let prices = "[Tokens(6), Tokens(9)] 0";
    try_search(&rt, alloc, crowd, [1, 0, 8, 4, 100], &[2], prices)?;
    let crowd = crowd_of(&rt, alloc, &TWO_SECTIONS, 2);
    let none = "NoPrices { least: 1 }";
    try_search(&rt, alloc, crowd, [1, 0, 8, 1, 100], &[2], none)?;
    Ok(())
}
