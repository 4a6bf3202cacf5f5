// Tables as text, and what is told of them. A case stands on a line: a table's text behind its
// header, ` => `, and what the table says, or its refusal as it prints itself. In the table `|` is
// a line feed.
ghost use Rattle.std.specs.Prelude.{◌<◌, length};

use course_catalog::{Catalog, read_catalog};
use market_units::{Name, SectionNo, StudentNo};
use price_sheet::read_prices;
use std::alloc::Global;
use std::process::Abort;
use std::test::Fail;
use student_roll::{Roll, read_roll};
use timetable_rules::Parts;

/// A kind of table.
#[derive(Clone, Copy)]
pub enum Table {
    Catalogue,
    Roll,
    /// Prices of the sections A, B and C.
    Prices,
}

const THREE_SECTIONS: &[u8] =
    b"section,course,seats,credits,meetings\nA,AA,2,1,\nB,BB,2,1,\nC,CC,2,1,\n";

/// Tries cases, one in each line: a table of this kind is read with the case's records behind the
/// header, and what it says, or its refusal, must be what the case tells.
pub fn try_cases(
    rt: &impl Abort,
    alloc: Global,
    table: Table,
    header: &str,
    cases: &str,
) -> Result<(), Fail> {
    for case in cases.split_terminator('\n') {
        try_case(rt, alloc, table, header, case)?;
    }
    Ok(())
}

fn try_case(
    rt: &impl Abort,
    alloc: Global,
    table: Table,
    header: &str,
    case: &str,
) -> Result<(), Fail> {
    let Some((written, wanted)) = case.split_once(" => ") else {
        return Err(Fail::from("a case without an answer"));
    };
    let text = text_of(alloc, header, written)?;
    let answer = told(rt, alloc, table, text.as_bytes())?;
    assert_eq!(rt; answer.as_str(), wanted, "{written}");
    Ok(())
}

// The text with a line feed for each `|`, behind the header.
fn text_of(alloc: Global, header: &str, written: &str) -> Result<String, Fail> {
    let mut text = String::from_str(alloc, header)?;
    let records = written.replace(alloc, "|", "\n")?;
    text.push_str(records.as_str())?;
    Ok(text)
}

/// The header, and so many rows below it: each is its number, from 0, and what stands behind it.
pub fn long_table(alloc: Global, header: &str, rows: u16, behind: &str) -> Result<String, Fail> {
    let mut text = String::from_str(alloc, header)?;
    for row in 0..rows {
        let line = format!(in alloc; "{row}{behind}\n")?;
        text.push_str(line.as_str())?;
    }
    Ok(text)
}

/// What the text says when it is read as a table of this kind, or the refusal's words. Prices are
/// read for the sections A, B and C.
pub fn told(rt: &impl Abort, alloc: Global, table: Table, text: &[u8]) -> Result<String, Fail> {
    assert!(rt; text.len() < 100_000);
    match table {
        Table::Catalogue => match read_catalog(alloc, text) {
            Ok(catalog) => said_by_catalogue(alloc, &catalog),
            Err(refusal) => Ok(format!(in alloc; "{refusal:?}")?),
        },
        Table::Roll => match read_roll(alloc, text) {
            Ok(roll) => said_by_roll(alloc, &roll),
            Err(refusal) => Ok(format!(in alloc; "{refusal:?}")?),
        },
        Table::Prices => match read_prices(alloc, &catalog_in(rt, alloc, THREE_SECTIONS), text) {
            Ok(prices) => Ok(format!(in alloc; "{:?}", prices.as_slice())?),
            Err(refusal) => Ok(format!(in alloc; "{refusal:?}")?),
        },
    }
}

/// The catalogue that this text is; the test ends where it is none.
pub fn catalog_in(rt: &impl Abort, alloc: Global, text: &[u8]) -> Catalog {
    assert!(rt; text.len() < 100_000);
    read_catalog(alloc, text).expect(rt, "a catalogue")
}

/// The roll that this text is; the test ends where it is none.
pub fn roll_in(rt: &impl Abort, alloc: Global, text: &[u8]) -> Roll {
    assert!(rt; text.len() < 100_000);
    read_roll(alloc, text).expect(rt, "a roll")
}

// What a catalogue says: its version and the seats of all sections; of each section the name, the
// seats, the credits, the number of the course, and in which halves of the term it runs; and the
// pairs of ordinals that clash.
fn said_by_catalogue(alloc: Global, catalog: &Catalog) -> Result<String, Fail> {
    let version = catalog.version();
    let mut said = format!(in alloc; "version {version}, seats {:?}", catalog.all_seats())?;
    for section in 0..catalog.len() {
        let section = SectionNo(section);
        let halves = halves_of(catalog.parts(section));
        let seats = catalog.seats(section);
        let credits = catalog.credits(section);
        let course = catalog.course(section);
        let numbers = format!(in alloc; " {seats} {credits} {course} {halves}")?;
        put_entry(&mut said, catalog.name(section), numbers.as_str())?;
    }
    said.push_str(", clashes")?;
    for section in 0..catalog.len() {
        put_clashes(alloc, &mut said, catalog, SectionNo(section))?;
    }
    Ok(said)
}

fn halves_of(parts: Parts) -> &'static str {
    match (parts.first, parts.second) {
        (true, true) => "12",
        (true, false) => "1",
        (false, true) => "2",
        (false, false) => "none",
    }
}

// The pairs of this section and one that clashes with it.
fn put_clashes(
    alloc: Global,
    said: &mut String,
    catalog: &Catalog,
    section: SectionNo,
) -> Result<(), Fail>
    requires { section.0 < length catalog.now.sections }
{
    for other in 0..catalog.len() {
        if catalog.clash(section, SectionNo(other)) {
            let pair = format!(in alloc; " {}-{other}", section.0)?;
            said.push_str(pair.as_str())?;
        }
    }
    Ok(())
}

/// What a roll says: its version, and for each student the name, the base budget, the two caps and
/// the tokens carried over.
pub fn said_by_roll(alloc: Global, roll: &Roll) -> Result<String, Fail> {
    let mut said = format!(in alloc; "version {}", roll.version())?;
    if roll.is_empty() {
        said.push_str(", nobody")?;
    }
    for student in 0..roll.len() {
        let student = StudentNo(student);
        let base = roll.base(student);
        let credits = roll.credits(student);
        let courses = roll.courses(student);
        let carry = roll.carry(student);
        let numbers = format!(in alloc; " {base} {credits} {courses} {carry}")?;
        put_entry(&mut said, roll.name(student), numbers.as_str())?;
    }
    Ok(said)
}

// Puts a name and the numbers behind it.
fn put_entry(said: &mut String, name: Name, numbers: &str) -> Result<(), Fail> {
    said.push_str(", ")?;
    for byte in name.bytes() {
        said.push(char::from(*byte))?;
    }
    said.push_str(numbers)?;
    Ok(())
}
