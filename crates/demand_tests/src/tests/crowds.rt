// The crowd of four students.
ghost use Rattle.std.specs.Prelude.{◌≡◌};
ghost use Rattle.preference_desk.specs.{DeskView.names_of, MarketNames.market_names};

use course_catalog::{Catalog, read_catalog};
use demand_api::Crowd;
use market_crowd::make_crowd;
use market_units::Tokens;
use preference_desk::Desk;
use std::alloc::Global;
use std::process::Abort;
use std::test::Fail;
use student_roll::{Roll, read_roll};
use utility_language::read_line;

const CATALOGUE: &[u8] = b"section,course,seats,credits,meetings\nA,AA,1,1,\nX,XX,1,1,\n";

const ROLL: &[u8] =
    b"student,budget,credits,courses,carry\ns1,100,10,1,0\ns2,101,10,1,0\ns3,102,10,1,0\ns4,103,10,1,7\n";

// Seed 0 draws the ranks 2, 1, 0, 3 for four students.
const BUDGETS: [Tokens; 4] = [Tokens(104), Tokens(103), Tokens(102), Tokens(116)];

// The desk at which one line was said.
fn desk_after(rt: &impl Abort, alloc: Global, catalog: &Catalog, roll: &Roll, line: &[u8]) -> Desk
    ensures { names_of result ≡ market_names catalog.now.sections roll.now.students }
{
    let mut desk = Desk::prepare(alloc, catalog, roll, 1).expect(rt, "memory");
    desk.post(1, read_line(line).expect(rt, "a command"));
    desk
}

// The crowd of these students after one of them said this, with the budgets that seed 0 draws with
// a spread of 2.
fn crowd_after(
    rt: &impl Abort,
    alloc: Global,
    catalogue: &[u8],
    students: &[u8],
    line: &[u8],
) -> Crowd {
    assert!(rt; catalogue.len() < 10_000 && students.len() < 10_000);
    let catalog = read_catalog(alloc, catalogue).expect(rt, "a catalogue");
    let roll = read_roll(alloc, students).expect(rt, "a roll");
    let desk = desk_after(rt, alloc, &catalog, &roll, line);
    make_crowd(alloc, &catalog, &roll, desk.closed(), 0, 2).expect(rt, "memory")
}

#[test]
fn menus_and_drawn_budgets(rt: HostRuntime) -> Result<(), Fail> {
    let crowd = crowd_after(&rt, rt.alloc(), CATALOGUE, ROLL, b"rate s2 X 50");
    assert_eq!(rt; crowd.budgets.as_slice(), BUDGETS.as_slice());
    assert_eq!(rt; crowd.sections, 2);
    assert_eq!(rt; crowd.menus.len(), 4);
    for (student, rated) in [0, 1, 0, 0].iter().enumerate() {
        assert_eq!(rt; crowd.menus[student].len(), *rated);
    }
    Ok(())
}
