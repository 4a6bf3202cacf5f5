// Neighbours of prices at which two students are asked.
ghost use Rattle.std.specs.Prelude.{◌≡◌};
ghost use Rattle.bundle_rules.specs.Demand.{price_in};
ghost use Rattle.demand_api.specs.{Asking.ArePricesFor, Crowds.counts};

use crate::tests::crowds::{ONE_WISH, Student, crowd_of};
use demand_api::{Crowd, Demands, PlainDemands};
use market_units::Tokens;
use price_neighbours::neighbours;
use std::alloc::Global;
use std::process::Abort;
use std::sync::{Arc, Wait};
use std::test::Fail;
use std::thread::Threads;

// Two students who both want the one section.
const OF_ONE: [Student<'static>; 2] = [
    (100, 2, ONE_WISH, &[], &[0]),
    (105, 2, ONE_WISH, &[], &[0]),
];

// Two students who both want two sections.
const OF_TWO: [Student<'static>; 2] = [
    (100, 2, &[(0, 0, 50), (1, 1, 40)], &[], &[0; 2]),
    (105, 2, &[(0, 0, 50), (1, 1, 40)], &[], &[0; 2]),
];

// The neighbours of a vector, over a crowd, where each section has one seat.
fn neighbours_of<R: Abort + Threads + Wait + Sync>(
    rt: &R,
    alloc: Global,
    crowd: Crowd,
    prices: &[Tokens],
    steps: &[u32],
) -> Vec<Vec<Tokens>> {
    assert!(rt; crowd.has_prices(prices));
    let seats = vec![in alloc; 1u16; prices.len()].expect(rt, "memory");
    let mut demands = PlainDemands::make(Arc::new(alloc, crowd).expect(rt, "memory"));
    let counts = counts_at(rt, alloc, &mut demands, prices);
    neighbours(rt, alloc, &mut demands, prices, &counts, &seats, steps).expect(rt, "memory")
}

// The counts at one vector.
fn counts_at<R: Abort + Threads + Wait + Sync, D: Demands>(
    rt: &R,
    alloc: Global,
    demands: &mut D,
    prices: &[Tokens],
) -> Vec<u32>
    requires { ArePricesFor (D.crowd demands.old) prices.now }
    ensures crowd { D.crowd demands.new ≡ D.crowd demands.old }
    ensures value { result.items ≡ counts (D.crowd demands.old) (price_in prices.now) }
{
    let batch = [prices.to_vec(alloc).expect(rt, "memory")];
    let found = demands.counts(rt, alloc, &batch).expect(rt, "memory");
    assert_eq!(rt; found.len(), 1);
    found[0].to_vec(alloc).expect(rt, "memory")
}

// A price, four steps, and how many vectors of which prices are wanted.
type Case = (u32, [u32; 4], usize, [u32; 3]);

const CASES: [Case; 4] = [
    // The worked row: one student too many, who stays up to 100.
    (0, [1, 1, 1, 1], 2, [1, 101, 0]),
    // Equal vectors are kept at the first place, and a step ends at the top.
    (0, [1, 101, 1000, 106], 3, [1, 101, 106]),
    // As many students as seats: nothing moves.
    (103, [1, 2, 3, 4], 1, [103, 0, 0]),
    // A free seat: steps go down, to 0 at the lowest.
    (106, [1, 200, 2, 1], 3, [105, 0, 104]),
];

#[test]
fn neighbours_of_one_section(rt: HostRuntime) -> Result<(), Fail> {
    let alloc = rt.alloc();
    for (price, steps, count, wanted) in CASES.iter() {
        let crowd = crowd_of(&rt, alloc, &OF_ONE, 1);
        let found = neighbours_of(&rt, alloc, crowd, &[Tokens(*price)], steps);
        assert_eq!(rt; found.len(), *count);
        for (place, vector) in found.iter().enumerate() {
            assert!(rt; place < 3);
            assert_eq!(rt; vector.as_slice(), [Tokens(wanted[place])].as_slice());
        }
    }
    Ok(())
}

#[test]
fn neighbours_of_two_sections(rt: HostRuntime) -> Result<(), Fail> {
    let alloc = rt.alloc();
    let crowd = crowd_of(&rt, alloc, &OF_TWO, 2);
    // The second student has 105 tokens: at price 5 the second section is too dear beside the
    // first.
    let prices = [Tokens(101), Tokens(0)];
    let found = neighbours_of(&rt, alloc, crowd, &prices, &[1, 7]);
    let wanted = [[101, 1], [101, 7], [101, 5]];
    assert_eq!(rt; found.len(), 3);
    for place in 0..3 {
        let vector = [Tokens(wanted[place][0]), Tokens(wanted[place][1])];
        assert_eq!(rt; found[place].as_slice(), vector.as_slice());
    }
    Ok(())
}
