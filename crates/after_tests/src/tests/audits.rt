// Audits of small markets, by workers. The texts are those of a second implementation, for the same
// tables and bundles.
ghost use Rattle.std.specs.Prelude.{◌≡◌, IfOk, length, map};
ghost use Rattle.std.specs.Arc.{arc_value};
ghost use Rattle.fairness_audit.specs.{Texts.AreRowsAmong, Views.row_of};

use crate::tests::tables::tables_of;
use bundle_rules::{Bundle, Menu, Rated};
use course_catalog::Catalog;
use demand_api::Crowd;
use fairness_audit::{EnvyRow, Seen, audit, is_allocation, put_rows};
use market_edge::{Gate, MeetingGate, OpenGate};
use market_units::{MAX_WORKERS, SectionNo, StudentNo, Tokens};
use std::alloc::Global;
use std::process::Abort;
use std::sync::{Arc, Wait};
use std::test::Fail;
use std::thread::Threads;
use student_roll::Roll;
use worked_terms::{
    BEYOND_ONE_ENVY, EQUAL_ENVY, EQUAL_ROLL, FOUR_ENVY, FOUR_ROLL, LOWER_BASE_ENVY,
    LOWER_BASE_ROLL, NOBODY_ROLL, ONE_SEAT_CATALOGUE, ORDINARY_ENVY, ORDINARY_ROLL,
    THREE_SECTIONS_CATALOGUE,
};

// A section that is rated, its course, and the rating; each has one credit.
type Wish = (u16, u16, u8);

// A student: its budget, the most sections that it may take, what it rates, its adjustments, and
// the clashes of its places.
type Student = (
    u32,
    u8,
    &'static [Wish],
    &'static [(u8, u8, i16)],
    &'static [u64],
);

// A market: its tables, its students, what they have after the second stage and at last, and the
// text of its audit.
#[derive(Clone, Copy)]
struct Case {
    catalogue: &'static [u8],
    roll: &'static [u8],
    students: &'static [Student],
    settled: &'static [&'static [SectionNo]],
    last: &'static [&'static [SectionNo]],
    text: &'static str,
}

const A: SectionNo = SectionNo(0);

const B: SectionNo = SectionNo(1);

const C: SectionNo = SectionNo(2);

const D: SectionNo = SectionNo(3);

// The places of these wishes.
fn places_of(alloc: Global, wishes: &[Wish]) -> Result<Vec<Rated>, Fail> {
    let mut places = Vec::new(alloc);
    for (section, course, rating) in wishes {
        places.push(Rated {
            section: SectionNo(*section),
            course: *course,
            rating: *rating,
            credits: 1,
        })?;
    }
    Ok(places)
}

// The menu of a student.
fn menu_of<R: Abort>(rt: &R, alloc: Global, student: &Student) -> Result<Menu, Fail> {
    let (_, courses, wishes, pairs, clashes) = *student;
    let places = places_of(alloc, wishes)?;
    assert!(rt; Menu::may_build(&places, pairs, clashes, 10, courses));
    Ok(Menu::build(alloc, &places, pairs, clashes, 10, courses)?)
}

// The crowd of these students, where there are so many sections.
fn crowd_of<R: Abort>(
    rt: &R,
    alloc: Global,
    students: &[Student],
    sections: u16,
) -> Result<Arc<Crowd>, Fail> {
    let mut menus = Vec::new(alloc);
    let mut budgets = Vec::new(alloc);
    for student in students {
        menus.push(menu_of(rt, alloc, student)?)?;
        budgets.push(Tokens(student.0))?;
    }
    let crowd = Crowd::of(menus, budgets, sections).expect(rt, "a crowd");
    Ok(Arc::new(alloc, crowd)?)
}

// These bundles.
fn bundles_of<R: Abort>(rt: &R, alloc: Global, held: &[&[SectionNo]]) -> Result<Vec<Bundle>, Fail> {
    let mut bundles = Vec::new(alloc);
    for sections in held {
        bundles.push(Bundle::of(sections).expect(rt, "a bundle"))?;
    }
    Ok(bundles)
}

// The rows of the crowd with these bundles, by so many workers.
fn rows_of<R: Abort + Threads + Wait + Sync, G: Gate + Sync>(
    rt: &R,
    alloc: Global,
    crowd: &Arc<Crowd>,
    held: &[&[SectionNo]],
    workers: u16,
    gate: &G,
) -> Result<Vec<EnvyRow>, Fail>
    ensures { IfOk result
        (λ rows. AreRowsAmong (length (arc_value crowd.now).menus.items)
        (arc_value crowd.now).sections (map row_of rows.items)) }
{
    assert!(rt; 1 <= workers && workers <= MAX_WORKERS);
    let bundles = bundles_of(rt, alloc, held)?;
    assert!(rt; is_allocation(crowd, &bundles));
    let shared = Arc::try_clone(crowd)?;
    let bundles = Arc::new(alloc, bundles)?;
    Ok(audit(rt, alloc, shared, bundles, workers, gate)?)
}

// The text of the case, by so many workers.
fn text_of<R: Abort + Threads + Wait + Sync>(
    rt: &R,
    alloc: Global,
    case: &Case,
    catalog: &Catalog,
    roll: &Roll,
    crowd: &Arc<Crowd>,
    workers: u16,
) -> Result<Vec<u8>, Fail> {
    assert_eq!(rt; catalog.len(), crowd.sections);
    assert_eq!(rt; usize::from(roll.len()), crowd.menus.len());
    let settled = rows_of(rt, alloc, crowd, case.settled, workers, &OpenGate)?;
    let last = rows_of(rt, alloc, crowd, case.last, workers, &OpenGate)?;
    Ok(put_rows(alloc, catalog, roll, &settled, &last)?)
}

// Tries the case with 1, 2 and 16 workers.
fn try_case<R: Abort + Threads + Wait + Sync>(
    rt: &R,
    alloc: Global,
    case: &Case,
) -> Result<(), Fail> {
    let (catalog, roll) = tables_of(rt, alloc, case.catalogue, case.roll);
    let crowd = crowd_of(rt, alloc, case.students, catalog.len())?;
    for workers in [1, 2, 16] {
        let found = text_of(rt, alloc, case, &catalog, &roll, &crowd, workers)?;
        assert!(rt;
            found.as_slice() == case.text.as_bytes(),
            "{workers} workers"
        );
    }
    Ok(())
}

const WANTS_A: &[Wish] = &[(0, 0, 50)];

const FOUR_STUDENTS: [Student; 4] = [
    (100, 1, WANTS_A, &[], &[0]),
    (101, 1, WANTS_A, &[], &[0]),
    (102, 1, WANTS_A, &[], &[0]),
    (103, 1, WANTS_A, &[], &[0]),
];

const THE_LAST: [&[SectionNo]; 4] = [&[], &[], &[], &[A]];

const FOUR: Case = Case {
    catalogue: ONE_SEAT_CATALOGUE,
    roll: FOUR_ROLL,
    students: &FOUR_STUDENTS,
    settled: &THE_LAST,
    last: &THE_LAST,
    text: FOUR_ENVY,
};

#[test]
fn four_students_one_seat(rt: HostRuntime) -> Result<(), Fail> {
    try_case(&rt, rt.alloc(), &FOUR)
}

const EQUAL: Case = Case {
    catalogue: ONE_SEAT_CATALOGUE,
    roll: EQUAL_ROLL,
    students: &[(100, 1, WANTS_A, &[], &[0]), (100, 1, WANTS_A, &[], &[0])],
    settled: &[&[], &[]],
    last: &[&[A], &[]],
    text: EQUAL_ENVY,
};

// Of two students with equal budgets the first gets the section in the aftermarket.
#[test]
fn equal_budgets_envy_after_the_aftermarket(rt: HostRuntime) -> Result<(), Fail> {
    try_case(&rt, rt.alloc(), &EQUAL)
}

const CARRIED: Case = Case {
    catalogue: ONE_SEAT_CATALOGUE,
    roll: LOWER_BASE_ROLL,
    students: &[(100, 1, WANTS_A, &[], &[0]), (105, 1, WANTS_A, &[], &[0])],
    settled: &[&[], &[A]],
    last: &[&[], &[A]],
    text: LOWER_BASE_ENVY,
};

// The budgets are the drawn ones, 100 and 90 with 15 carried over.
#[test]
fn carried_tokens_count_for_higher_and_lower(rt: HostRuntime) -> Result<(), Fail> {
    try_case(&rt, rt.alloc(), &CARRIED)
}

const TWO_NAMES: &[u8] = b"student,budget,credits,courses\nu,300,10,3\nv,100,10,3\n";

const BEYOND: Case = Case {
    catalogue: THREE_SECTIONS_CATALOGUE,
    roll: TWO_NAMES,
    students: &[
        (300, 3, &[(0, 0, 50), (1, 1, 50), (2, 2, 10)], &[], &[0; 3]),
        (100, 3, &[(0, 0, 50), (1, 1, 50)], &[], &[0; 2]),
    ],
    settled: &[&[A, B, C], &[]],
    last: &[&[A, B, C], &[]],
    text: BEYOND_ONE_ENVY,
};

// Without either of two sections of equal rating the other is still better than nothing.
#[test]
fn envy_beyond_one_section(rt: HostRuntime) -> Result<(), Fail> {
    try_case(&rt, rt.alloc(), &BEYOND)
}

const USEFUL: Case = Case {
    catalogue: b"section,course,seats,credits,meetings\nA,AA,1,1,\nB,BB,1,1,\nC,CC,1,1,\nD,DD,1,1,\n",
    roll: TWO_NAMES,
    students: &[
        (300, 3, &[(0, 0, 50), (1, 1, 50), (3, 3, 50)], &[], &[0; 3]),
        (100, 3, &[(0, 0, 50), (1, 1, 50), (2, 2, 60)], &[], &[0; 3]),
    ],
    settled: &[&[A, B, D], &[C]],
    last: &[&[A, B, D], &[C]],
    text: "settled u 0 0 0
settled v 0 1 0
sees u [A,B] but for A
settled total 0 1 0
final u 0 0 0
final v 0 1 0
sees u [A,B] but for A
final total 0 1 0
",
};

// What a student does not rate it does not see. But for either of the two sections that it sees the
// envy ends, and the lower one is told.
#[test]
fn sees_only_what_is_of_use(rt: HostRuntime) -> Result<(), Fail> {
    try_case(&rt, rt.alloc(), &USEFUL)
}

const ORDINARY: Case = Case {
    catalogue: b"section,course,seats,credits,meetings\nA,ACCT,1,1,\nB,BIOL,2,1,\nC,CHEM,2,1,\nD,ACCT,1,1,\n",
    roll: ORDINARY_ROLL,
    students: &[
        (104, 2, &[(0, 0, 60), (1, 1, 30)], &[], &[0; 2]),
        (103, 2, &[(0, 0, 50), (2, 2, 40)], &[(0, 1, 10)], &[0; 2]),
        (102, 2, &[(0, 0, 20), (3, 0, 45)], &[], &[2, 1]),
    ],
    settled: &[&[A, B], &[C], &[D]],
    last: &[&[A, B], &[C], &[D]],
    text: ORDINARY_ENVY,
};

// Three students, of whom one adjusts two sections and one rates two that clash.
#[test]
fn ordinary_term(rt: HostRuntime) -> Result<(), Fail> {
    try_case(&rt, rt.alloc(), &ORDINARY)
}

const NOBODY: Case = Case {
    catalogue: ONE_SEAT_CATALOGUE,
    roll: NOBODY_ROLL,
    students: &[],
    settled: &[],
    last: &[],
    text: "settled total 0 0 0\nfinal total 0 0 0\n",
};

#[test]
fn an_audit_of_nobody(rt: HostRuntime) -> Result<(), Fail> {
    try_case(&rt, rt.alloc(), &NOBODY)
}

const HIMSELF: [Student; 1] = [(100, 2, &[(0, 0, 10), (1, 1, 10)], &[(0, 1, -15)], &[0; 2])];

// One of two sections alone is worth more to the student than both, which it has: that is no envy
// of itself.
#[test]
fn nobody_envies_himself(rt: HostRuntime) -> Result<(), Fail> {
    let crowd = crowd_of(&rt, rt.alloc(), &HIMSELF, 2)?;
    let rows = rows_of(&rt, rt.alloc(), &crowd, &[&[A, B]], 1, &OpenGate)?;
    let row = EnvyRow {
        lower: 0,
        higher: 0,
        beyond: 0,
        first: None,
    };
    assert!(rt; rows.as_slice() == [row].as_slice());
    Ok(())
}

// Whether the rows are those of four students who want the one section that the last has.
fn are_of_four<R: Abort>(rt: &R, rows: &[EnvyRow]) -> bool {
    let seen = Seen {
        student: StudentNo(3),
        bundle: Bundle::of(&[A]).expect(rt, "a bundle"),
        without: Some(A),
    };
    let envious = EnvyRow {
        lower: 0,
        higher: 1,
        beyond: 0,
        first: Some(seen),
    };
    let content = EnvyRow {
        lower: 0,
        higher: 0,
        beyond: 0,
        first: None,
    };
    rows == [envious, envious, envious, content].as_slice()
}

/// Has so many workers audit four students who want the one section that the last has.
pub(crate) fn audit_four<R: Abort + Threads + Wait + Sync, G: Gate + Sync>(
    rt: &R,
    alloc: Global,
    workers: u16,
    gate: &G,
) -> Result<(), Fail> {
    let crowd = crowd_of(rt, alloc, &FOUR_STUDENTS, 1)?;
    let rows = rows_of(rt, alloc, &crowd, &THE_LAST, workers, gate)?;
    assert!(rt; are_of_four(rt, &rows));
    Ok(())
}

// The stops of two workers that met, and of nobody else.
fn try_gate<R: Abort>(rt: &R, gate: &MeetingGate) {
    assert_eq!(rt; gate.missed(), 0);
    let (first_starts, _) = gate.first_worker.counts();
    let (second_starts, _) = gate.second_worker.counts();
    assert_eq!(rt; first_starts.saturating_add(second_starts), 2);
    for session in [&gate.first, &gate.second, &gate.third] {
        assert_eq!(rt; session.counts(), (0, 0));
    }
    assert_eq!(rt; gate.others(), 0);
}

// Two workers, neither of whom can post all rows before the other has posted one.
#[test]
fn two_workers_meet(rt: HostRuntime) -> Result<(), Fail> {
    let gate = MeetingGate::new();
    audit_four(&rt, rt.alloc(), 2, &gate)?;
    try_gate(&rt, &gate);
    Ok(())
}
