// A worked term and its forged texts, each with the line of its finding.
use crate::tests::readers::{settings_in, streams_in, tables_in};
use certificate_checker::{CheckEnd, check, finding_line};
use market_units::read_number;
use std::alloc::Global;
use std::process::Abort;
use std::test::Fail;
use worked_terms::{FOUR_MARKET, ORDINARY_MARKET, WorkedMarket};

// The number of a line, what stands there instead, or nothing where the line is left out, and what
// is then found.
const FORGED: &str = "1|course-match 3|line 1 form
28||line 28 missing
2|order 1 1 1 1 1 1 1 1 1|journal at 9
5|budget cat 103|budget cat
13|price C 104|student bob unaffordable
17|bundle cat [B] -+*n|student cat infeasible
15|bundle ann [A,B] ++*n|student ann tree syntax at 4
17|bundle cat [] -+*n|student cat tree open at 2
16|bundle bob [C] -+**|student bob tree redundant at 3
15|bundle ann [A,B] ++*nb0|student ann tree leaf at 4
15|bundle ann [A,B] +-*nn|student ann tree branch at 1
15|bundle ann [A,B] ++*nnn|student ann tree rest at 5
18|turn 2 ann [A,B] ++*nn|turn 1 order
19|turn 1 bob [A,C] ++*nn|turn 2 taken
20|turn 1 cat [B] -+*n|turn 3 infeasible
18|turn 1 ann [A] ++*nn|turn 1 tree open at 2
20||not quiet after 2 turns
22|final bob []|final bob
24|used A 1 2|used A";

// The text with another line of this number, or without it where none is given.
fn with_line(alloc: Global, text: &str, number: u64, with: &str) -> Result<String, Fail> {
    let mut made = String::new(alloc);
    for (line, place) in text.split('\n').zip(1..) {
        let line = if place == number { with } else { line };
        if place == number && with.is_empty() {
            continue;
        }
        if place > 1 {
            made.push('\n')?;
        }
        made.push_str(line)?;
    }
    Ok(made)
}

// The line of the first finding on a text of this market, or none where it is accepted.
fn found(
    rt: &impl Abort,
    alloc: Global,
    market: &WorkedMarket,
    text: &[u8],
) -> Result<Vec<u8>, Fail> {
    let (catalog, roll) = tables_in(rt, alloc, market.term.catalogue, market.term.roll);
    let settings = settings_in(rt, alloc, market.settings);
    let streams = streams_in(rt, alloc, market.session);
    assert!(rt; text.len() < 1_000_000);
    match check(alloc, &catalog, &roll, &settings, &streams, text) {
        Ok(()) => Ok(Vec::new(alloc)),
        Err(CheckEnd::Found(finding)) => {
            let line = finding_line(&catalog, &roll, finding);
            Ok(line.as_bytes().to_vec(alloc)?)
        }
        Err(CheckEnd::NoMemory) => Err(Fail::from("memory")),
    }
}

// The text where a line of this number is another one, or left out, has this finding.
fn try_forged(
    rt: &impl Abort,
    alloc: Global,
    number: u64,
    with: &str,
    finding: &str,
) -> Result<(), Fail> {
    let text = with_line(alloc, ORDINARY_MARKET.term.text, number, with)?;
    let told = found(rt, alloc, &ORDINARY_MARKET, text.as_bytes())?;
    let wanted = format!(in alloc; "finding: {finding}\n")?;
    assert_eq!(rt; told.as_slice(), wanted.as_bytes());
    Ok(())
}

// Such a row of a table.
fn try_row(rt: &impl Abort, alloc: Global, row: &str) -> Result<(), Fail> {
    let mut fields = row.split('|');
    if let (Some(number), Some(with), Some(finding)) = (
        fields.next(),
        fields.next(),
        fields.next(),
    ) {
        let number = read_number(number.as_bytes(), 30).expect(rt, "a number");
        return try_forged(rt, alloc, number, with, finding);
    }
    Err(Fail::from("a row"))
}

#[test]
fn forged_texts_have_their_findings(rt: HostRuntime) -> Result<(), Fail> {
    let alloc = rt.alloc();
    let published = ORDINARY_MARKET.term.text.as_bytes();
    let accepted = found(&rt, alloc, &ORDINARY_MARKET, published)?;
    assert!(rt; accepted.is_empty());
    for row in FORGED.lines() {
        try_row(&rt, alloc, row)?;
    }
    try_forged(&rt, alloc, 29, "end\n", "line 29 rest")
}

// Two students have the one seat in the second stage, which is told before any turn.
#[test]
fn seats_are_looked_at_before_turns(rt: HostRuntime) -> Result<(), Fail> {
    let alloc = rt.alloc();
    let text = with_line(alloc, FOUR_MARKET.term.text, 9, "price X 102")?;
    let text = with_line(alloc, &text, 12, "bundle s3 [X] +*n")?;
    let told = found(&rt, alloc, &FOUR_MARKET, text.as_bytes())?;
    assert_eq!(rt; told.as_slice(), b"finding: seats X 2 of 1\n".as_slice());
    Ok(())
}
