// Three students and three sections.
ghost use Rattle.std.specs.Prelude.{◌≤◌, length};
ghost use Rattle.held_seats.specs.Floors.{IsFloor};

use bundle_rules::Bundle;
use held_seats::{Floor, are_below};
use market_units::{MAX_SECTIONS, SectionNo, SectionSet};
use std::process::Abort;
use std::test::Fail;

// Which of the sections are in the set.
fn of_three(set: &SectionSet) -> [bool; 3] {
    [
        set.has(SectionNo(0)),
        set.has(SectionNo(1)),
        set.has(SectionNo(2)),
    ]
}

fn may_choose<R: Abort>(rt: &R, floor: &Floor, place: usize) -> [bool; 3] {
    assert!(rt; place < floor.held.len());
    assert!(rt; are_below(400, &floor.held));
    of_three(&floor.choices(place))
}

// Gives a student a bundle, and tells whether it held another one.
fn given<R: Abort>(rt: &R, floor: &mut Floor, seats: &[u16], place: usize, bundle: Bundle) -> bool
    requires sections { length seats.now ≤ MAX_SECTIONS }
    requires floor { IsFloor seats.now floor.old }
    ensures { IsFloor seats.now floor.new }
{
    assert!(rt; place < floor.held.len());
    assert!(rt; floor.held.len() <= 2_000);
    assert!(rt; are_below(seats.len(), &floor.held));
    assert!(rt; are_below(seats.len(), &[bundle]));
    floor.give(seats, place, bundle)
}

#[test]
fn seats_are_taken_and_given_up(rt: HostRuntime) -> Result<(), Fail> {
    let both = Bundle::of(&[SectionNo(0), SectionNo(1)]).ok_or("two sections")?;
    let first = Bundle::of(&[SectionNo(0)]).ok_or("the first")?;
    let second = Bundle::of(&[SectionNo(1)]).ok_or("the second")?;
    let third = Bundle::of(&[SectionNo(2)]).ok_or("the third")?;
    let seats = [1, 2, 1];
    let bundles = [both, second, Bundle::empty()];
    assert!(rt; are_below(3, &bundles));
    let mut floor = Floor::open(rt.alloc(), &seats, &bundles).expect(&rt, "memory");
    assert_eq!(rt; floor.used.as_slice(), [1, 2, 0].as_slice());
    assert_eq!(rt; of_three(&floor.free), [false, false, true]);
    assert_eq!(rt; may_choose(&rt, &floor, 0), [true, true, true]);
    assert_eq!(rt; may_choose(&rt, &floor, 1), [false, true, true]);
    assert!(rt; given(&rt, &mut floor, &seats, 2, third));
    assert!(rt; given(&rt, &mut floor, &seats, 0, first));
    assert!(rt; !given(&rt, &mut floor, &seats, 0, first));
    assert_eq!(rt; floor.used.as_slice(), [1, 1, 1].as_slice());
    assert_eq!(rt; of_three(&floor.free), [false, true, false]);
    assert_eq!(rt; may_choose(&rt, &floor, 0), [true, true, false]);
    Ok(())
}
