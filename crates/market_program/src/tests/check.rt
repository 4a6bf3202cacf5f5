// `check` over texts in memory: forged texts, each with its finding, and texts with one byte
// changed.
use super::changes::text_with;
use super::shelf::text_named;
use super::*;
use worked_terms::ORDINARY_TEXT;

const OF_TERM: &str = "check term.cat term.stu term.set TEXT term.s1";

// Changes of the ordinary term.
const FORGED_TERM: &str = "\
1 course-match 3
=> 8
finding: line 1 form
== 4 budget bob 0103
=> 8
finding: line 4 form
== 6 start B 0
7 start A 0
=> 8
finding: line 6 form
== 10 error 01
=> 8
finding: line 10 form
== 28 end\r
=> 8
finding: line 28 form
== 29
=> 8
finding: line 28 missing
== 28
=> 8
finding: line 28 missing
== 28 end
28 end
=> 8
finding: line 29 rest
== 2 order 1 1 1 1 1 1 1 2
=> 8
finding: journal at 8
== 2 order 1 1 1 1 1 1 1 1 1
=> 8
finding: journal at 9
== 5 budget cat 103
=> 8
finding: budget cat
== 11 price A 105
=> 8
finding: student ann unaffordable
== 12 price B 1
=> 8
finding: student ann unaffordable
== 13 price C 104
=> 8
finding: student bob unaffordable
== 16 bundle bob [A,C] ++*nn
=> 8
finding: student bob unaffordable
== 17 bundle cat [B] -+*n
=> 8
finding: student cat infeasible
== 17 bundle cat [] -+*n
=> 8
finding: student cat tree open at 2
== 15 bundle ann [A,B] n
=> 8
finding: student ann tree open at 0
== 15 bundle ann [A,B] ++*n
=> 8
finding: student ann tree syntax at 4
== 15 bundle ann [A,B] ++*nnn
=> 8
finding: student ann tree rest at 5
== 15 bundle ann [A,B] ++*nb0
=> 8
finding: student ann tree leaf at 4
== 15 bundle ann [A,B] +-*nn
=> 8
finding: student ann tree branch at 1
== 18 turn 1 bob [C] -+*n
19 turn 1 ann [A,B] ++*nn
=> 8
finding: turn 1 order
== 21 turn 2 ann [A,B] ++*nn
21 final ann [A,B]
=> 8
finding: turn 4 order
== 19 turn 1 bob [A,C] ++*nn
=> 8
finding: turn 2 taken
== 20 turn 1 cat [B] -+*n
=> 8
finding: turn 3 infeasible
== 18 turn 1 ann [A] ++*nn
=> 8
finding: turn 1 tree open at 2
== 20
=> 8
finding: not quiet after 2 turns
== 22 final bob []
=> 8
finding: final bob
== 24 used A 1 2
=> 8
finding: used A
== 6 start A 7
=> 0
accepted
== 10 error 5
=> 0
accepted
== 14 price D 1
=> 0
accepted
== 16 bundle bob [C] -+**
=> 8
finding: student bob tree redundant at 3
== 11 price A 103
=> 8
finding: student bob tree branch at 0
== 25 used B 2 2
=> 8
finding: used B
== 18
19
20
=> 8
finding: not quiet after 0 turns
== 2 order 1 1 1 1 1 1 1
=> 8
finding: journal at 8
== 3 budget ann 105
=> 8
finding: budget ann
== => 0
accepted
== 1 \u{feff}course-match 1
=> 8
finding: line 1 form
";

// Changes of the four students of one seat.
const FORGED_SEAT: &str = "\
9 price X 102
12 bundle s3 [X] +*n
=> 8
finding: seats X 2 of 1
== => 0
accepted
";

// Changes of the seat that is filled.
const FORGED_AFTERMARKET: &str = "\
10 turn 1 u [] -*
=> 8
finding: turn 1 tree branch at 0
== 12
13
=> 8
finding: not quiet after 2 turns
== => 0
accepted
";

// Whole texts: of tables with carried tokens, of another market, of a market whose worker is
// delayed, and none.
const TEXTS: &str = "\
== carried tokens accepted
check carried.cat carried.stu ACCEPT1 carried.text equal.s1
=> 0
accepted
== carried tokens roll with the text of version one
check equal.cat carried.stu equal.set equal.text equal.s1
=> 8
finding: line 1 form
== carried tokens text with the roll of version one
check equal.cat equal.stu equal.set carried.text equal.s1
=> 8
finding: line 1 form
== text of another market
check term.cat term.stu term.set four.text term.s1
=> 8
finding: line 3 form
== four students one seat accepted
check four.cat four.stu four.set four.text four.s1
=> 0
accepted
== missing text
check term.cat term.stu term.set NONE term.s1
=> 2
input 4 can not be read
== bad settings come before missing text
check term.cat term.stu EMPTY NONE term.s1
=> 3
input 3 row 0: not json
== order decides the preferences
check equal.cat equal.stu equal.set TEXT equal.s1 S2
-- TEXT equal.text
2 order 1 1 2
-- S2
clear u
=> 8
finding: student u tree branch at 0
== two sessions in turn accepted
check four.cat four.stu four.set TEXT FIRST-TWO LAST-TWO
-- TEXT four.text
2 order 2 1 2 1
=> 0
accepted
";

// Each text with such changes has its answer. The changes of the next text stand behind `== `.
fn try_forged<R: Threads + Wait + Sync + Abort>(
    rt: &R,
    alloc: Global,
    line: &str,
    text: &str,
    forged: &str,
) -> Result<(), Fail> {
    let Some(text) = text_named(text) else {
        return Err(Fail::from("no text"));
    };
    for case in forged.split("== ") {
        let Some((changes, answers)) = case.split_once("=> ") else {
            return Err(Fail::from("a text without an answer"));
        };
        let text = text_with(alloc, text, changes)?;
        try_run(rt, alloc, line, &[("TEXT", &text)], answers)?;
    }
    Ok(())
}

#[test]
fn forged_texts(rt: HostRuntime) -> Result<(), Fail> {
    for (line, text, forged) in [
        (OF_TERM, "term.text", FORGED_TERM),
        (
            "check four.cat four.stu four.set TEXT four.s1",
            "four.text",
            FORGED_SEAT,
        ),
        (
            "check equal.cat equal.stu equal.set TEXT equal.s1",
            "equal.text",
            FORGED_AFTERMARKET,
        ),
    ] {
        try_forged(&rt, rt.alloc(), line, text, forged)?;
    }
    try_cases(&rt, rt.alloc(), TEXTS)
}

// What stands in the place of a byte.
const OTHERS: [u8; 12] = *b"019 A\n[],+*n";

// The text with another byte in this place.
fn with_byte(alloc: Global, place: usize, other: u8) -> Result<Vec<u8>, Fail> {
    let mut text = ORDINARY_TEXT.as_bytes().to_vec(alloc)?;
    if let Some(byte) = text.get_mut(place) {
        *byte = other;
    }
    Ok(text)
}

// Where another byte stands in this place, the text is accepted only if the line is one that is
// only read.
fn try_byte<R: Threads + Wait + Sync + Abort>(
    rt: &R,
    alloc: Global,
    place: usize,
    is_only_read: bool,
) -> Result<(), Fail> {
    assert!(rt; place < ORDINARY_TEXT.len());
    for other in OTHERS {
        let text = with_byte(alloc, place, other)?;
        let is_other = text.as_slice() != ORDINARY_TEXT.as_bytes();
        let (status, _) = run(rt, alloc, OF_TERM, &[("TEXT", &text)])?;
        let is_accepted = status == Status::Done;
        assert!(rt;
            !is_accepted || !is_other || is_only_read,
            "{place} {other}"
        );
    }
    Ok(())
}

// Whether a line is of a kind that is only read.
fn is_only_read(line: &[u8]) -> bool {
    line.starts_with(b"start ") || line.starts_with(b"error ") || line.starts_with(b"price ")
}

// A text with one byte changed is accepted only where the byte is of a start, an error or a price
// line.
#[test]
fn texts_with_one_byte_changed(rt: HostRuntime) -> Result<(), Fail> {
    let mut place: usize = 0;
    for line in ORDINARY_TEXT.as_bytes().split(|byte| *byte == b'\n') {
        for _ in line {
            try_byte(&rt, rt.alloc(), place, is_only_read(line))?;
            place = place.wrapping_add(1);
        }
        if place < ORDINARY_TEXT.len() {
            try_byte(&rt, rt.alloc(), place, false)?;
        }
        place = place.wrapping_add(1);
    }
    Ok(())
}
