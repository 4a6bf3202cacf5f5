// The menus of two students.
ghost use Rattle.std.specs.Prelude.{◌≡◌};
ghost use Rattle.preference_desk.specs.{DeskView.names_of, MarketNames.market_names};

use crate::tests::readers::tables_in;
use bundle_rules::{Menu, Rated};
use course_catalog::Catalog;
use market_menus::menus;
use market_units::{NoMemory, SectionNo};
use preference_desk::Desk;
use std::alloc::Global;
use std::process::Abort;
use std::test::Fail;
use student_roll::Roll;
use utility_language::{Command, read_line};

// X1 and X2 are of one course; X3 and X4 are of two courses, and meet at the same time.
const CATALOG: &[u8] =
    b"section,course,seats,credits,meetings\nX1,K,9,3,\nX2,K,9,4,\nX3,L,9,5,M0900-1000\nX4,M,9,6,M0930-1030\n";

const ROLL: &[u8] = b"student,budget,credits,courses\nann,100,10,2\nbob,101,20,3\n";

// ann adjusts a pair with X3, which she does not rate in the end.
const LINES: [&[u8]; 8] = [
    b"rate ann X2 20",
    b"rate ann X1 10",
    b"rate ann X3 5",
    b"pair ann X1 X3 7",
    b"pair ann X2 X1 -30",
    b"rate ann X3 0",
    b"rate bob X4 1",
    b"rate bob X3 100",
];

// Says each line at the desk.
fn say_each(rt: &impl Abort, desk: &mut Desk, lines: &[&[u8]])
    ensures { names_of desk.new ≡ names_of desk.old }
{
    for line in lines {
        let command = read_line(line).unwrap_or(Command::Unreadable);
        assert!(rt; desk.room() >= 1);
        desk.post(1, command);
    }
}

// The menus of the desk's closed preferences.
fn menus_of(
    alloc: Global,
    catalog: &Catalog,
    roll: &Roll,
    desk: &Desk,
) -> Result<Vec<Menu>, NoMemory>
    requires { names_of desk.now ≡ market_names catalog.now.sections roll.now.students }
{
    menus(alloc, catalog, roll, desk.closed())
}

// The menu of two places has these sections, this adjustment and these caps, and the two clash.
fn try_menu(rt: &impl Abort, menu: &Menu, places: [Rated; 2], adjustment: i16, caps: (u16, u8)) {
    assert!(rt; menu.len() == 2);
    assert_eq!(rt; menu.places(), places.as_slice());
    assert_eq!(rt; menu.adjustment(0, 1), adjustment);
    assert!(rt; menu.clash(0, 1) && menu.clash(1, 0));
    assert!(rt; !menu.clash(0, 0));
    assert_eq!(rt; menu.credits(), caps.0);
    assert_eq!(rt; menu.courses(), caps.1);
}

fn rated(section: u16, course: u16, rating: u8, credits: u16) -> Rated {
    Rated {
        section: SectionNo(section),
        course,
        rating,
        credits,
    }
}

// The menus after these lines.
fn menus_after(rt: &impl Abort, alloc: Global, lines: &[&[u8]]) -> Result<Vec<Menu>, NoMemory> {
    let (catalog, roll) = tables_in(rt, alloc, CATALOG, ROLL);
    let mut desk = Desk::prepare(alloc, &catalog, &roll, 20)?;
    say_each(rt, &mut desk, lines);
    menus_of(alloc, &catalog, &roll, &desk)
}

#[test]
fn menus_of_two_students(rt: HostRuntime) -> Result<(), Fail> {
    let menus = menus_after(&rt, rt.alloc(), &LINES)?;
    assert_eq!(rt; menus.len(), 2);
    try_menu(
        &rt,
        &menus[0],
        [rated(0, 0, 10, 3), rated(1, 0, 20, 4)],
        -30,
        (10, 2),
    );
    try_menu(
        &rt,
        &menus[1],
        [rated(2, 1, 100, 5), rated(3, 2, 1, 6)],
        0,
        (20, 3),
    );
    Ok(())
}
