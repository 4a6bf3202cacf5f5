// Desks of drop and add: requests and their replies.
ghost use Rattle.std.specs.Prelude.{◌≡◌, length};
ghost use Rattle.dropadd_desk.specs.HallView.{market_of, room_of};

use crate::tests::tables::tables_of;
use bundle_rules::Bundle;
use course_catalog::Catalog;
use dropadd_desk::{HallCommand, HallDesk};
use dropadd_hall::read_request;
use held_seats::are_below;
use market_units::SectionNo;
use std::alloc::Global;
use std::process::Abort;
use std::test::Fail;
use student_roll::Roll;
use worked_terms::{FIVE_SECTIONS_TERM, FIVE_STUDENTS_TERM, WorkedTerm};

// Requests with each reply, one after the other, where u holds A.
const EACH: &str = "\
drop => Unreadable
add z Q => NoStudent
add u Q => NoSection
leave z A => NoStudent
add u A => Holding
add u B => Clash { with: SectionNo(0) }
add u C => Credits
add u D => Added
add u E => Courses
add v A => Queued { ahead: 0 }
add v A => Waiting
add w A => Queued { ahead: 1 }
leave w B => NotWaiting
drop v B => NotHolding
drop u A => Dropped { lapsed: 0, next: Some(StudentNo(1)) }
add u A => Queued { ahead: 1 }
drop v A => Dropped { lapsed: 0, next: Some(StudentNo(2)) }
leave w A => NotWaiting
leave u A => Left
add w D => Added
add w E => Courses
add w B => Clash { with: SectionNo(0) }
drop w D => Dropped { lapsed: 0, next: None }
add w C => Credits
";

// Two who took what clashes in the meantime lapse, and the third is next.
const LAPSE: &str = "\
add v A => Queued { ahead: 0 }
add w A => Queued { ahead: 1 }
add x A => Queued { ahead: 2 }
add y A => Queued { ahead: 3 }
add v B => Added
add w B => Added
drop u A => Dropped { lapsed: 2, next: Some(StudentNo(3)) }
add u A => Queued { ahead: 1 }
";

// What so many students hold, of whom the first holds the first section.
fn opening_of(rt: &impl Abort, alloc: Global, students: u16) -> Vec<Bundle> {
    let mut bundles = Vec::new(alloc);
    let first = Bundle::of(&[SectionNo(0)]).expect(rt, "one section");
    bundles.push(first).expect(rt, "memory");
    for _ in 1..students {
        bundles.push(Bundle::empty()).expect(rt, "memory");
    }
    bundles
}

/// A desk at which the first student holds the first section, with room for so many requests.
pub(crate) fn desk_of(
    rt: &impl Abort,
    alloc: Global,
    catalog: &Catalog,
    roll: &Roll,
    room: u32,
) -> HallDesk
    ensures market { market_of result ≡ record { catalog = catalog.now; roll = roll.now } }
    ensures room { room_of result ≡ room }
{
    let bundles = opening_of(rt, alloc, roll.len());
    assert!(rt; bundles.len() == usize::from(roll.len()));
    assert!(rt; are_below(usize::from(catalog.len()), &bundles));
    HallDesk::prepare(alloc, catalog, roll, &bundles, room).expect(rt, "memory")
}

// The desk of a term, with room for 24 requests.
fn open(rt: &impl Abort, alloc: Global, term: &WorkedTerm) -> HallDesk {
    let (catalog, roll) = tables_of(rt, alloc, term.catalogue, term.roll);
    desk_of(rt, alloc, &catalog, &roll, 24)
}

// Each request has the reply beside it.
fn say_each(rt: &impl Abort, alloc: Global, desk: &mut HallDesk, said: &str) -> Result<(), Fail> {
    for row in said.split_terminator('\n') {
        let Some((line, wanted)) = row.split_once(" => ") else {
            return Err(Fail::from("a request without a reply"));
        };
        let request = read_request(line.as_bytes()).unwrap_or(HallCommand::Unreadable);
        assert!(rt; desk.room() >= 1);
        let reply = desk.take(request);
        let told = format!(in alloc; "{reply:?}")?;
        assert_eq!(rt; told.as_str(), wanted, "{line}");
    }
    Ok(())
}

#[test]
fn each_reply(rt: HostRuntime) -> Result<(), Fail> {
    let mut desk = open(&rt, rt.alloc(), &FIVE_SECTIONS_TERM);
    say_each(&rt, rt.alloc(), &mut desk, EACH)?;
    assert_eq!(rt; desk.room(), 0);
    Ok(())
}

#[test]
fn two_lapse(rt: HostRuntime) -> Result<(), Fail> {
    let mut desk = open(&rt, rt.alloc(), &FIVE_STUDENTS_TERM);
    say_each(&rt, rt.alloc(), &mut desk, LAPSE)
}
