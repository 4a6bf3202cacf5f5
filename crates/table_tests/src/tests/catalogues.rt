// Catalogues, and their sections.
use crate::tests::tables::{Table, catalog_in, long_table, told, try_cases};
use market_units::{Name, SectionNo, read_name};
use std::alloc::Global;
use std::process::Abort;
use std::test::Fail;

const HEADER: &str = "section,course,seats,credits,meetings\n";

const SECOND_HEADER: &str = "section,course,seats,credits,meetings,parts\n";

const REFUSED: &str = "\
A,AA,2,1,\"M0900-10 => Meetings { row: 2 }
A,AA,2,1,|A,BB,2,1,| => Repeated { row: 3, earlier: 2 }
A,AA,1,1,|B,BB,1,1,|C,CC,1,1,|B,BB,1,1,| => Repeated { row: 5, earlier: 3 }
A,AA,1,1,|A,A A,x,1,| => Repeated { row: 3, earlier: 2 }
A,AA,007,1,| => Number { row: 2, column: 3 }
A,AA,+5,1,| => Number { row: 2, column: 3 }
A,AA,10000,1,| => Number { row: 2, column: 3 }
A,AA,1,101,| => Number { row: 2, column: 4 }
A,AA,1,0.5,| => Number { row: 2, column: 4 }
A,AA,2,1| => Fields { row: 2 }
A,AA,2,1,,| => Fields { row: 2 }
,AA,1,1,| => Name { row: 2, column: 1 }
A,AA,1,1,|B 1,BB,1,1,| => Name { row: 3, column: 1 }
A,\u{c9}conomie,1,1,| => Name { row: 2, column: 2 }
A,\"A|A\",1,1,| => Name { row: 2, column: 2 }
A,A\"A,1,1,| => Name { row: 2, column: 2 }
A,AA,x,y,z| => Number { row: 2, column: 3 }
A,AA,1,1,M|A,AA,x,1,| => Meetings { row: 2 }
A,AA,1,1,M2300-2400| => Meetings { row: 2 }
|\r|A,AA,1,1,|||B,BB,x,1,| => Number { row: 3, column: 3 }
NNNNNNNNNNNNNNNNNNNNNNNNNNNNNNNNN,AA,1,1,| => Name { row: 2, column: 1 }
";

const REFUSED_PARTS: &str = "\
A,AA,1,1,M0900-1020,1|B,BB,1,1,M0900-1020,21| => Parts { row: 3 }
A,AA,1,1,,1|B,BB,1,1,,3| => Parts { row: 3 }
A,AA,1,1,,| => Parts { row: 2 }
A,AA,1,1,M,21| => Meetings { row: 2 }
A,AA,1,1,| => Fields { row: 2 }
A,AA,1,1,,1,| => Fields { row: 2 }
A,AA,1,1,,12|A,AA,1,1,,x| => Repeated { row: 3, earlier: 2 }
";

const REFUSED_HEADERS: &str = "\
\u{feff} => Header
 => Header
\u{feff}\u{feff}section,course,seats,credits,meetings| => Header
course,section,seats,credits,meetings|A,AA,1,1,| => Header
section,course,seats,credits,meetings,room|A,AA,1,1,| => Header
section, course,seats,credits,meetings|A,AA,1,1,| => Header
section,course,seats,credits,parts,meetings|A,AA,1,1,12,| => Header
";

// The name, the seats, the credits, the number of the course, and the halves of the term. The first
// and the third have one course, and the second overlaps the third.
const TOLD: &str = "\
section,course,seats,credits,meetings|A,AA,2,1,M0900-1020|B,BB,0,100,| => version 1, seats [2, 0], A 2 1 0 12, B 0 100 1 12, clashes
section,course,seats,credits,meetings|A,AA,2,1,M0900-1020|B,BB,0,100,T0900-1000;M1020-1140|a-Z_0.9,AA,9999,0,M1139-1200| => version 1, seats [2, 0, 9999], A 2 1 0 12, B 0 100 1 12, a-Z_0.9 9999 0 0 12, clashes 0-2 1-2 2-0 2-1
\u{feff}section,course,seats,credits,meetings\r|A,AA,2,1,M0900-1020\r|\r|B,BB,0,100,T0900-1000;M1020-1140\r|a-Z_0.9,AA,9999,0,M1139-1200\r| => version 1, seats [2, 0, 9999], A 2 1 0 12, B 0 100 1 12, a-Z_0.9 9999 0 0 12, clashes 0-2 1-2 2-0 2-1
\r\r\"section\",\"course\",seats,credits,\"meet\"ings\r\"A\",AA,\"2\",1,\"M0900-1020\"\r|B,\"BB\",0,100,T0900-1000;M1020-1140|a-Z_0.9,AA,9999,0,\"M1139-1200\" => version 1, seats [2, 0, 9999], A 2 1 0 12, B 0 100 1 12, a-Z_0.9 9999 0 0 12, clashes 0-2 1-2 2-0 2-1
";

// Sections clash that have a course in common, or a half and an hour.
const PARTS: &str = "\
A,AA,1,1,M0900-1020,1|B,BB,1,1,M0900-1020,2|C,AA,1,1,,2|D,DD,1,1,M0900-1020,12| => version 2, seats [1, 1, 1, 1], A 1 1 0 1, B 1 1 1 2, C 1 1 0 2, D 1 1 2 12, clashes 0-2 0-3 1-3 2-0 3-0 3-1
";

#[test]
fn refused_records(rt: HostRuntime) -> Result<(), Fail> {
    try_cases(&rt, rt.alloc(), Table::Catalogue, HEADER, REFUSED)
}

#[test]
fn refused_records_of_version_2(rt: HostRuntime) -> Result<(), Fail> {
    try_cases(
        &rt,
        rt.alloc(),
        Table::Catalogue,
        SECOND_HEADER,
        REFUSED_PARTS,
    )
}

#[test]
fn refused_headers(rt: HostRuntime) -> Result<(), Fail> {
    try_cases(&rt, rt.alloc(), Table::Catalogue, "", REFUSED_HEADERS)
}

#[test]
fn what_is_told(rt: HostRuntime) -> Result<(), Fail> {
    try_cases(&rt, rt.alloc(), Table::Catalogue, "", TOLD)
}

#[test]
fn parts_of_the_term(rt: HostRuntime) -> Result<(), Fail> {
    try_cases(&rt, rt.alloc(), Table::Catalogue, SECOND_HEADER, PARTS)
}

fn name(rt: &impl Abort, text: &[u8]) -> Name {
    read_name(text).expect(rt, "a name")
}

// A section is found by its name, and a course is none.
#[test]
fn a_section_is_found_by_its_name(rt: HostRuntime) -> Result<(), Fail> {
    let text = b"section,course,seats,credits,meetings\nA,AA,2,1,\nB,BB,0,100,\n";
    let catalog = catalog_in(&rt, rt.alloc(), text);
    assert_eq!(rt; catalog.find(&name(&rt, b"B")), Some(SectionNo(1)));
    assert_eq!(rt; catalog.find(&name(&rt, b"AA")), None);
    Ok(())
}

fn is_too_long(rt: &impl Abort, alloc: Global, text: &str) -> Result<(), Fail> {
    let refusal = told(rt, alloc, Table::Catalogue, text.as_bytes())?;
    assert_eq!(rt; refusal.as_str(), "TooMany");
    Ok(())
}

// A catalogue of 400 sections is read, and refused where one more follows, whatever it is.
#[test]
fn four_hundred_sections(rt: HostRuntime) -> Result<(), Fail> {
    let mut full = long_table(rt.alloc(), HEADER, 400, ",A,1,1,")?;
    let catalog = catalog_in(&rt, rt.alloc(), full.as_bytes());
    assert_eq!(rt; catalog.len(), 400);
    let more = long_table(rt.alloc(), HEADER, 401, ",A,1,1,")?;
    is_too_long(&rt, rt.alloc(), more.as_str())?;
    full.push_str("?")?;
    is_too_long(&rt, rt.alloc(), full.as_str())
}
