// Eliminations whose prices are plain to see.
use crate::tests::crowds::{FOUR_RIVALS, Student, are_bundles, crowd_of};
use demand_api::{Crowd, PlainDemands};
use market_units::Tokens;
use oversubscription_stage::{Settled, settle};
use std::alloc::Global;
use std::process::Abort;
use std::sync::{Arc, Wait};
use std::test::Fail;
use std::thread::Threads;

// Settles a crowd from these prices.
fn settled<R: Abort + Threads + Wait + Sync>(
    rt: &R,
    alloc: Global,
    crowd: Crowd,
    seats: &[u16],
    prices: &[Tokens],
) -> Settled {
    assert!(rt; crowd.has_prices(prices));
    assert_eq!(rt; seats.len(), prices.len());
    let crowd = Arc::new(alloc, crowd).expect(rt, "memory");
    let mut demands = PlainDemands::make(crowd);
    settle(rt, alloc, &mut demands, seats, prices).expect(rt, "memory")
}

// The elimination has these prices, so many rounds, and these bundles.
fn assert_settled(
    rt: &impl Abort,
    settled: &Settled,
    prices: &[Tokens],
    rounds: u32,
    bundles: &[&[u16]],
) {
    assert!(rt; settled.prices.as_slice() == prices);
    assert_eq!(rt; settled.rounds, rounds);
    assert!(rt; are_bundles(&settled.bundles, bundles));
}

#[test]
fn four_students_of_one_seat(rt: HostRuntime) -> Result<(), Fail> {
    let crowd = crowd_of(&rt, rt.alloc(), &FOUR_RIVALS, 1);
    // Three too many: at most two may take it, at 102. One too many: at most one, at 103.
    let settled = settled(&rt, rt.alloc(), crowd, &[1], &[Tokens(0)]);
    assert_settled(&rt, &settled, &[Tokens(103)], 2, &[&[], &[], &[], &[0]]);
    Ok(())
}

// Three students of the ordinary term, whose first section and fourth clash.
const ORDINARY: [Student<'static>; 3] = [
    (104, 2, &[(0, 0, 60), (1, 1, 30)], &[], &[0; 2]),
    (103, 2, &[(0, 0, 50), (2, 2, 40)], &[(0, 1, 10)], &[0; 2]),
    (102, 2, &[(0, 0, 20), (3, 0, 45)], &[], &[2, 1]),
];

#[test]
fn an_ordinary_term(rt: HostRuntime) -> Result<(), Fail> {
    let crowd = crowd_of(&rt, rt.alloc(), &ORDINARY, 4);
    // The first section has two students and one seat; the second of them affords it up to 103.
    let settled = settled(&rt, rt.alloc(), crowd, &[1, 2, 2, 1], &[Tokens(0); 4]);
    let prices = [Tokens(104), Tokens(0), Tokens(0), Tokens(0)];
    assert_settled(&rt, &settled, &prices, 1, &[&[0, 1], &[2], &[3]]);
    Ok(())
}
