// Inputs at their limits, and one beyond.
use super::*;
use market_units::read_number;

// In these cases a line as `0..400 S#,C#,1,1,` stands for one with each number from the first to
// before the last.
fn with_rows(alloc: Global, cases: &str) -> Result<String, Fail> {
    let mut text = String::new(alloc);
    for line in cases.split_terminator('\n') {
        put_rows(&mut text, alloc, line)?;
    }
    Ok(text)
}

fn put_rows(text: &mut String, alloc: Global, line: &str) -> Result<(), Fail> {
    let Some((first, last, row)) = rows_of(line) else {
        return put_row(text, line);
    };
    for number in first..last {
        let digits = format!(in alloc; "{number}")?;
        let row = row.replace(alloc, "#", digits.as_str())?;
        put_row(text, row.as_str())?;
    }
    Ok(())
}

fn put_row(text: &mut String, row: &str) -> Result<(), Fail> {
    text.push_str(row)?;
    text.push_str("\n")?;
    Ok(())
}

// The two numbers of a line that stands for several, and what each is but for its number.
fn rows_of(line: &str) -> Option<(u64, u64, &str)> {
    let (first, rest) = line.split_once("..")?;
    let (last, row) = rest.split_once(' ')?;
    let first = read_number(first.as_bytes(), 9_999)?;
    let last = read_number(last.as_bytes(), 9_999)?;
    Some((first, last, row))
}

// A crowd of one student that takes the last section: each section is told with its own count.
const COUNTS: &str = "\
== counts of four hundred sections
demand 1 CAT ANN ACCEPT0 PRICES S1
-- CAT
section,course,seats,credits,meetings
0..400 S#,C#,1,1,
-- PRICES
section,price
-- S1
rate ann S399 7
=> 0
order 1
bundle ann [S399]
0..399 count S# 0
count S399 1
error 0
";

// A student rates at most sixty sections; one that goes makes room for another.
const RATINGS: &str = "\
== sixty rated sections
prefer CAT ANN S1
-- CAT
section,course,seats,credits,meetings
1..62 X#,K#,1,1,
-- S1
1..61 rate ann X# 1
rate ann X61 1
rate ann X1 2
rate ann X1 0
rate ann X61 3
rate ann X2 05
rate zoe X2 1
rate ann Q 1
pair ann X2 X2 5
rate ann X2 101
pair ann X2 X3 201
=> 0
1..61 entry 1 done rate ann X# 1
entry 1 too-many rate ann X61 1
entry 1 done rate ann X1 2
entry 1 done rate ann X1 0
entry 1 done rate ann X61 3
entry 1 unreadable unreadable
entry 1 no-student rate zoe X2 1
entry 1 no-section rate ann Q 1
entry 1 same-pair pair ann X2 X2 5
entry 1 out-of-range rate ann X2 101
entry 1 out-of-range pair ann X2 X3 201
2..61 rate ann X# 1
rate ann X61 3
";

const SECTIONS: &str = "\
== four hundred sections
quote CAT S1 ann 10 8
-- CAT
section,course,seats,credits,meetings
0..400 S#,C#,1,1,
-- S1
rate ann S399 7
rate ann S400 8
=> 0
bundle ann [S399]
utility 7
== one section more
quote CAT S1 ann 10 8
-- S1
rate ann S399 7
rate ann S400 8
-- CAT
section,course,seats,credits,meetings
0..400 S#,C#,1,1,
S0
=> 3
input 1 row 402: too many rows
";

const STUDENTS: &str = "\
== two thousand students
prefer TWO STU S1
-- STU
student,budget,credits,courses
0..2000 t#,900000,800,8
-- S1
rate t1999 B 100
=> 0
entry 1 done rate t1999 B 100
rate t1999 B 100
== one student more
prefer TWO STU NONE
-- STU
student,budget,credits,courses
0..2000 t#,900000,800,8
t2000,1,1,1
=> 3
input 2 row 2002: too many rows
";

#[test]
fn tables_at_their_limit(rt: HostRuntime) -> Result<(), Fail> {
    for cases in [RATINGS, SECTIONS, COUNTS, STUDENTS] {
        let cases = with_rows(rt.alloc(), cases)?;
        try_cases(&rt, rt.alloc(), cases.as_str())?;
    }
    Ok(())
}

// The commands of all sessions together are counted, and so are the requests of all streams; the
// one that brings too many is told. A name ends in how many lines it has beyond one hundred
// thousand.
const MANY_LINES: [(&str, &str); 5] = [
    ("prefer TWO ANN L0 L1", "4\ninput 4 is too long\n"),
    ("prefer TWO ANN L1 L0 NONE", "4\ninput 4 is too long\n"),
    ("prefer TWO ANN L0 L0 NONE", "2\ninput 5 can not be read\n"),
    (
        "hall equal.cat equal.stu equal.text L1 L1 NONE",
        "4\ninput 5 is too long\n",
    ),
    (
        "hall equal.cat equal.stu equal.text L0 L0 NONE",
        "2\ninput 6 can not be read\n",
    ),
];

#[test]
fn two_hundred_thousand_lines(rt: HostRuntime) -> Result<(), Fail> {
    let alloc = rt.alloc();
    let more = vec![in alloc; *b"x\n"; 100_001]?;
    let more = more.as_slice().as_flattened();
    for (line, answers) in MANY_LINES {
        let files = [("L1", more), ("L0", &more[2..])];
        try_run(&rt, alloc, line, &files, answers)?;
    }
    Ok(())
}

// A command over a file of so many bytes, the first of them left away or not, and its answer.
type Long = (&'static str, usize, &'static str);

// Tries commands over a file of so many of this byte.
fn try_long<R: Threads + Wait + Sync + Abort>(
    rt: &R,
    alloc: Global,
    byte: u8,
    count: usize,
    cases: &[Long],
) -> Result<(), Fail> {
    let bytes = vec![in alloc; byte; count]?;
    for (line, from, answers) in cases {
        let Some(long) = bytes.get(*from..) else {
            return Err(Fail::from("no bytes"));
        };
        try_run(rt, alloc, line, &[("LONG", long)], answers)?;
    }
    Ok(())
}

// Each input has a limit of its own, and one byte more is too long, whatever the byte.
const LONG_INPUTS: [Long; 5] = [
    ("quote LONG TIE ann 10 1", 0, "4\ninput 1 is too long\n"),
    ("quote TWO LONG ann 10 1", 0, "4\ninput 2 is too long\n"),
    (
        "quote TWO LONG ann 10 1",
        1,
        "0\nbundle ann []\nutility 0\n",
    ),
    ("prefer TWO LONG TIE", 0, "4\ninput 2 is too long\n"),
    ("prefer TWO ANN TIE LONG", 0, "4\ninput 4 is too long\n"),
];

#[test]
fn inputs_at_their_limit(rt: HostRuntime) -> Result<(), Fail> {
    try_long(&rt, rt.alloc(), b'\n', 16_777_217, &LONG_INPUTS)
}

// The catalogue of a market that is run has the same limit.
const LONG_CATALOGUES: [Long; 1] = [("run 2 LONG STU SET S1", 0, "4\ninput 1 is too long\n")];

#[test]
fn catalogues_beyond_their_limit(rt: HostRuntime) -> Result<(), Fail> {
    try_long(&rt, rt.alloc(), b' ', 16_777_217, &LONG_CATALOGUES)
}

// A published text at its limit is read, and one byte more is too long, and is told before a
// session that can not be read and before a name that is not known.
const LONG_TEXTS: [Long; 6] = [
    (
        "check term.cat term.stu term.set LONG NONE",
        0,
        "TooLong { input: 4 }\ninput 4 is too long\n",
    ),
    (
        "check term.cat term.stu term.set LONG term.s1",
        0,
        "TooLong { input: 4 }\ninput 4 is too long\n",
    ),
    (
        "check term.cat term.stu term.set LONG term.s1",
        1,
        "8\nfinding: line 1 missing\n",
    ),
    (
        "hall equal.cat equal.stu LONG EMPTY",
        0,
        "TooLong { input: 3 }\ninput 3 is too long\n",
    ),
    (
        "hall equal.cat equal.stu LONG EMPTY",
        1,
        "8\nfinding: line 1 missing\n",
    ),
    (
        "explain single.cat single.stu single.set LONG zoe A single.s1",
        0,
        "TooLong { input: 4 }\ninput 4 is too long\n",
    ),
];

#[test]
fn published_texts_at_their_limit(rt: HostRuntime) -> Result<(), Fail> {
    try_long(&rt, rt.alloc(), b'x', 67_108_865, &LONG_TEXTS)
}
