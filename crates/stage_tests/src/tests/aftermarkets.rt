// Markets whose aftermarket is plain to see.
ghost use Rattle.std.specs.Prelude.{◌≡◌, ◌≤◌, ◌<◌, IsTrue, IfOk, All, length, map};
ghost use Rattle.bundle_rules.specs.{Bundles.sections_of, Demand.price_in};
ghost use Rattle.demand_api.specs.{Asking.AreSectionPrices, Crowds.demands, Crowds.holders};
ghost use Rattle.demand_api.specs.Views.{data_of};
ghost use Rattle.held_seats.specs.Choices.{AreHeldWithin};

use crate::tests::crowds::{Student, Wish, are_bundles, crowd_of};
use aftermarket_stage::{After, Turn, aftermarket};
use bundle_rules::{Bundle, best_plain};
use demand_api::Crowd;
use market_units::{MAX_PRICE, MAX_SECTIONS, NoMemory, SectionNo, SectionSet, Tokens};
use std::alloc::Global;
use std::process::Abort;
use std::test::Fail;

// What each student takes, by trying every choice.
fn taken(alloc: Global, crowd: &Crowd, prices: &[Tokens]) -> Result<Vec<Bundle>, NoMemory>
    requires prices { AreSectionPrices crowd.now.sections prices.now }
    ensures { IfOk result
        (λ bundles. map sections_of bundles.items
        ≡ demands (data_of crowd.now) (price_in prices.now)) }
{
    let allowed = SectionSet::full(crowd.sections);
    let mut bundles = Vec::new(alloc);
    for place in 0..crowd.menus.len() {
        let bundle = best_plain(&crowd.menus[place], prices, crowd.budgets[place], &allowed);
        bundles.push(bundle)?;
    }
    Ok(bundles)
}

fn are_priced(sections: u16, prices: &[Tokens]) -> bool
    ensures { IsTrue result → AreSectionPrices sections prices.now }
{
    prices.len() == usize::from(sections) && none_too_high(prices)
}

fn none_too_high(prices: &[Tokens]) -> bool
    ensures { IsTrue result → All (λ price. price.0 ≤ MAX_PRICE) prices.now }
{
    prices.iter().all(|price| price.0 <= MAX_PRICE)
}

fn holders_of(bundles: &[Bundle], section: SectionNo) -> usize
    ensures value { result ≡ holders section.0 (map sections_of bundles.now) }
    ensures few { result ≤ length bundles.now }
{
    match bundles {
        [] => 0,
        [bundle, more @ ..] => usize::from(bundle.has(section)) + holders_of(more, section),
    }
}

fn are_within(seats: &[u16], bundles: &[Bundle]) -> bool
    requires { length seats.now ≤ MAX_SECTIONS }
    ensures { IsTrue result
        → AreHeldWithin (length seats.now) seats.now (map sections_of bundles.now) }
{
    for place in 0..seats.len() {
        if holders_of(bundles, SectionNo(place as u16)) > usize::from(seats[place]) {
            return false;
        }
    }
    true
}

// The aftermarket that starts with what each student takes.
fn held<R: Abort>(
    rt: &R,
    alloc: Global,
    crowd: &Crowd,
    seats: &[u16],
    prices: &[Tokens],
    raise: u8,
) -> After {
    assert!(rt; are_priced(crowd.sections, prices));
    assert_eq!(rt; seats.len(), usize::from(crowd.sections));
    assert!(rt; raise <= 50);
    let bundles = taken(alloc, crowd, prices).expect(rt, "memory");
    assert!(rt; are_within(seats, &bundles));
    aftermarket(alloc, crowd, seats, prices, &bundles, raise).expect(rt, "memory")
}

// What one rates who wants the first of two sections most.
const RIVAL: &[Wish] = &[(0, 0, 50), (1, 1, 1)];

const TWO_RIVALS: [Student<'static>; 2] = [
    (100, 1, RIVAL, &[], &[0; 2]),
    (100, 1, RIVAL, &[], &[0; 2]),
];

const FOUR_RIVALS: [Student<'static>; 4] = [
    (100, 1, RIVAL, &[], &[0; 2]),
    (101, 1, RIVAL, &[], &[0; 2]),
    (102, 1, RIVAL, &[], &[0; 2]),
    (103, 1, RIVAL, &[], &[0; 2]),
];

// Two students, of whom the first wants the second section more.
const CHOOSERS: [Student<'static>; 2] = [
    (110, 1, &[(0, 0, 50), (1, 1, 60)], &[], &[0; 2]),
    (100, 1, RIVAL, &[], &[0; 2]),
];

// The only section of a bundle, if it has one.
fn only(bundle: &Bundle) -> Option<u16> {
    bundle.sections().first().map(|section| section.0)
}

// Whether these are the turns: the pass, the student, whether it may choose each of two sections,
// and what it holds then.
fn are_turns(turns: &[Turn], wanted: &[(u64, u16, bool, bool, Option<u16>)]) -> bool {
    if turns.len() != wanted.len() {
        return false;
    }
    turns.iter().zip(wanted).all(|(turn, wanted)| {
        let first = turn.allowed.has(SectionNo(0));
        let second = turn.allowed.has(SectionNo(1));
        (turn.pass, turn.student.0, first, second, only(&turn.bundle)) == *wanted
    })
}

// The aftermarket has these turns, so many passes, and so many used seats.
fn assert_after(
    rt: &impl Abort,
    after: &After,
    turns: &[(u64, u16, bool, bool, Option<u16>)],
    passes: u64,
    used: [u16; 2],
) {
    assert!(rt; are_turns(&after.turns, turns));
    assert_eq!(rt; after.passes, passes);
    assert!(rt; after.used.as_slice() == used.as_slice());
}

#[test]
fn two_students_and_one_seat(rt: HostRuntime) -> Result<(), Fail> {
    let crowd = crowd_of(&rt, rt.alloc(), &TWO_RIVALS, 2);
    let prices = [Tokens(101), Tokens(1_000_001)];
    let after = held(&rt, rt.alloc(), &crowd, &[1, 0], &prices, 10);
    let turns = [
        (1, 0, true, false, Some(0)),
        (1, 1, false, false, None),
        (2, 0, true, false, Some(0)),
        (2, 1, false, false, None),
    ];
    assert_after(&rt, &after, &turns, 2, [1, 0]);
    Ok(())
}

#[test]
fn nobody_can_pay_without_a_raise(rt: HostRuntime) -> Result<(), Fail> {
    let crowd = crowd_of(&rt, rt.alloc(), &TWO_RIVALS, 2);
    let prices = [Tokens(101), Tokens(1_000_001)];
    let after = held(&rt, rt.alloc(), &crowd, &[1, 0], &prices, 0);
    let turns = [(1, 0, true, false, None), (1, 1, true, false, None)];
    assert_after(&rt, &after, &turns, 1, [0, 0]);
    Ok(())
}

#[test]
fn the_greatest_budget_goes_first(rt: HostRuntime) -> Result<(), Fail> {
    let crowd = crowd_of(&rt, rt.alloc(), &FOUR_RIVALS, 2);
    let prices = [Tokens(103), Tokens(1_000_001)];
    let after = held(&rt, rt.alloc(), &crowd, &[1, 0], &prices, 10);
    let turns = [
        (1, 3, true, false, Some(0)),
        (1, 2, false, false, None),
        (1, 1, false, false, None),
        (1, 0, false, false, None),
    ];
    assert_after(&rt, &after, &turns, 1, [1, 0]);
    assert!(rt; are_bundles(&after.bundles, &[&[], &[], &[], &[0]]));
    Ok(())
}

#[test]
fn a_seat_that_is_given_up_is_free_at_the_next_turn(rt: HostRuntime) -> Result<(), Fail> {
    let crowd = crowd_of(&rt, rt.alloc(), &CHOOSERS, 2);
    // The first student has the first section, and with the raise the second one too is within its
    // budget.
    let prices = [Tokens(105), Tokens(115)];
    let after = held(&rt, rt.alloc(), &crowd, &[1, 1], &prices, 10);
    let turns = [
        (1, 0, true, true, Some(1)),
        (1, 1, true, false, Some(0)),
        (2, 0, false, true, Some(1)),
        (2, 1, true, false, Some(0)),
    ];
    assert_after(&rt, &after, &turns, 2, [1, 1]);
    Ok(())
}

#[test]
fn without_students_there_is_no_pass(rt: HostRuntime) -> Result<(), Fail> {
    let crowd = crowd_of(&rt, rt.alloc(), &[], 2);
    let after = held(&rt, rt.alloc(), &crowd, &[1, 2], &[Tokens(0); 2], 10);
    assert_after(&rt, &after, &[], 0, [0, 0]);
    assert_eq!(rt; after.bundles.len(), 0);
    Ok(())
}
