// What a published text is read as, and that it is written again as it was.

use crate::tests::readers::tables_in;
use course_catalog::Catalog;
use market_certificate::{Publication, TextRefusal, put_publication, read_publication};
use market_units::{Tokens, read_number};
use std::alloc::Global;
use std::process::Abort;
use std::test::Fail;
use student_roll::Roll;
use worked_terms::{
    CARRIED_TERM, EQUAL_TERM, FOUR_MARKET, NO_SECTIONS_CATALOGUE, NO_SECTIONS_TERM, NOBODY_ROLL,
    NOBODY_TERM, ORDINARY_TERM, SWAPS_MARKET, TIES_MARKET, WorkedTerm,
};

// Nothing but headers.
const NOTHING_BUT_HEADERS: WorkedTerm = WorkedTerm {
    catalogue: NO_SECTIONS_CATALOGUE,
    roll: NOBODY_ROLL,
    text: "course-match 1\norder\nerror 0\nend\n",
};

// What a change of the ordinary term's text is, what stands where for how many bytes, and the line
// and the fault of the defect that this makes; `|` is a line feed.
const CHANGES: &str = "\
Budget with leading zero: 0 at 63 for 0 => 4 Form
Bundle not ascending: B,A at 309 for 3 => 21 Form
Bundle of no section of the catalogue: E at 325 for 1 => 22 Form
Bundle with a section twice: A at 311 for 1 => 21 Form
Bytes after the end without line feed:   at 390 for 0 => 29 Rest
Carriage return before the last line feed: \r at 389 for 0 => 28 Form
Empty line within the text: | at 122 for 0 => 10 Form
Empty text:  at 0 for 390 => 1 Missing
End line left away:  at 386 for 4 => 28 Missing
Error of sixty five bits: 8446744073709551616 at 129 for 0 => 10 Form
Error with leading zero: 0 at 128 for 0 => 10 Form
Final lines change places: bob [C]|final ann [A,B at 304 for 22 => 21 Form
First line of another version: 3 at 13 for 1 => 1 Form
Last line feed left away:  at 389 for 1 => 28 Missing
Order of session sixty five: 65 at 35 for 1 => 2 Form
Order of session zero: 0 at 35 for 1 => 2 Form
Price above its limit in the text: 1000002 at 170 for 1 => 14 Form
Seats above their limit in the text: 0000 at 385 for 0 => 27 Form
Second end line: end| at 390 for 0 => 29 Rest
Space at the end of a line:   at 129 for 0 => 10 Form
Start lines change places: B 0|start A at 88 for 11 => 6 Form
Text cut within a line:  at 145 for 245 => 12 Missing
Text with byte order mark: \u{feff} at 0 for 0 => 1 Form
Tree left empty:  at 189 for 5 => 15 Form
Tree of another byte: x at 193 for 1 => 15 Form
Turn of no student: zoe at 242 for 3 => 18 Form
Turn of pass zero: 0 at 240 for 1 => 18 Form
Two spaces between fields:   at 128 for 0 => 10 Form
A turn before the bundles: turn 1 ann [] *| at 172 for 0 => 15 Form
An error of twenty-one digits: 184467440737095516161 at 128 for 1 => 10 Form
A second fault behind the first: x|start B x| at 90 for 300 => 6 Form
A turn of the last section without a line feed: turn 1 ann [] *| at 386 for 0 => 28 Form
Nine sections in a bundle: A,A,A,A,A,A,A,A,A at 184 for 3 => 15 Form
A comma behind a section: , at 185 for 2 => 15 Form
";

// What a text is read as with the tables of a term.
fn read(
    rt: &impl Abort,
    alloc: Global,
    term: &WorkedTerm,
    text: &[u8],
) -> Result<Publication, TextRefusal> {
    let (catalog, roll) = tables_in(rt, alloc, term.catalogue, term.roll);
    assert!(rt; text.len() < 10_000);
    read_publication(alloc, &catalog, &roll, text)
}

// The text, read and written again.
fn written_again(
    rt: &impl Abort,
    alloc: Global,
    catalog: &Catalog,
    roll: &Roll,
    text: &[u8],
) -> Vec<u8> {
    assert!(rt; text.len() < 10_000);
    let publication = read_publication(alloc, catalog, roll, text).expect(rt, "a publication");
    put_publication(alloc, catalog, roll, &publication).expect(rt, "memory")
}

// The text is read with these tables, and written again as it was.
fn try_text(rt: &impl Abort, alloc: Global, catalogue: &[u8], roll: &[u8], text: &[u8]) {
    let (catalog, roll) = tables_in(rt, alloc, catalogue, roll);
    let written = written_again(rt, alloc, &catalog, &roll, text);
    assert!(rt; written.as_slice() == text);
}

fn try_case(rt: &impl Abort, alloc: Global, case: &WorkedTerm) {
    try_text(rt, alloc, case.catalogue, case.roll, case.text.as_bytes());
}

// What a row of changes says: what stands there, where, for how many bytes, and the defect.
fn change_of(row: &str) -> Option<(&str, u64, u64, &str)> {
    let (_, change) = row.split_once(": ")?;
    let (change, defect) = change.split_once(" => ")?;
    let (new, place) = change.split_once(" at ")?;
    let (from, old) = place.split_once(" for ")?;
    let from = read_number(from.as_bytes(), 400)?;
    let old = read_number(old.as_bytes(), 400)?;
    Some((new, from, old, defect))
}

// The text of the ordinary term, changed.
fn with_change(alloc: Global, new: &str, from: u64, old: u64) -> Result<Vec<u8>, Fail> {
    let base = ORDINARY_TERM.text.as_bytes();
    let behind = from.saturating_add(old);
    let (Some(front), Some(rest)) = (base.get(..from as usize), base.get(behind as usize..)) else {
        return Err(Fail::from("a place behind the text"));
    };
    let new = new.replace(alloc, "|", "\n")?;
    let mut text = front.to_vec(alloc)?;
    text.extend_from_slice(new.as_bytes())?;
    text.extend_from_slice(rest)?;
    Ok(text)
}

// What is told of a text of the ordinary term.
fn told(rt: &impl Abort, alloc: Global, text: &[u8]) -> Result<String, Fail> {
    match read(rt, alloc, &ORDINARY_TERM, text) {
        Err(TextRefusal::Defect { line, kind }) => Ok(format!(in alloc; "{line} {kind:?}")?),
        _ => Ok(String::from_str(alloc, "no defect")?),
    }
}

// The changed text has this defect.
fn try_change(rt: &impl Abort, alloc: Global, row: &str) -> Result<(), Fail> {
    let Some((new, from, old, defect)) = change_of(row) else {
        return Err(Fail::from("no change"));
    };
    let text = with_change(alloc, new, from, old)?;
    let told = told(rt, alloc, &text)?;
    assert_eq!(rt; told.as_str(), defect, "{row}");
    Ok(())
}

#[test]
fn a_published_text_is_read_and_written_again(rt: HostRuntime) {
    let cases = [
        SWAPS_MARKET.term,
        CARRIED_TERM,
        NOBODY_TERM,
        FOUR_MARKET.term,
        NO_SECTIONS_TERM,
        NOTHING_BUT_HEADERS,
        ORDINARY_TERM,
        TIES_MARKET.term,
    ];
    for case in cases.iter() {
        try_case(&rt, rt.alloc(), case);
    }
}

// Part terms make version two.
#[test]
fn part_terms_make_version_two(rt: HostRuntime) -> Result<(), Fail> {
    let term = EQUAL_TERM;
    let text = term
        .text
        .replace(rt.alloc(), "course-match 1", "course-match 2")?;
    let catalogue = b"section,course,seats,credits,meetings,parts\nX,XX,1,1,,12\n";
    try_text(&rt, rt.alloc(), catalogue, term.roll, text.as_bytes());
    Ok(())
}

#[test]
fn the_first_defect_is_told(rt: HostRuntime) -> Result<(), Fail> {
    for row in CHANGES.lines() {
        try_change(&rt, rt.alloc(), row)?;
    }
    Ok(())
}

// The tokens that the lines of the ordinary term say.
fn says_tokens(rt: &impl Abort, publication: &Publication) {
    assert!(rt;
        publication.budgets.as_slice() == [Tokens(104), Tokens(103), Tokens(102)].as_slice()
    );
    assert!(rt; publication.start.as_slice() == [Tokens(0); 4].as_slice());
    assert!(rt;
        publication.prices.as_slice() == [Tokens(104), Tokens(0), Tokens(0), Tokens(0)].as_slice()
    );
}

// What else they say.
fn says_numbers(rt: &impl Abort, publication: &Publication) {
    assert_eq!(rt; publication.order.as_slice(), [1; 8].as_slice());
    assert_eq!(rt; publication.error, 1);
    assert_eq!(rt;
        publication.used.as_slice(),
        [(1, 1), (1, 2), (1, 2), (1, 1)].as_slice()
    );
}

#[test]
fn a_text_says_what_its_lines_say(rt: HostRuntime) {
    let text = ORDINARY_TERM.text.as_bytes();
    let publication = read(&rt, rt.alloc(), &ORDINARY_TERM, text).expect(&rt, "a publication");
    says_tokens(&rt, &publication);
    says_numbers(&rt, &publication);
}
