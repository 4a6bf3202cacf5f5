// The ordinary term with one input cut behind each of its bytes. The answers were computed apart
// from this program.
use super::*;
use worked_terms::{ORDINARY_CATALOGUE, ORDINARY_ROLL, ORDINARY_SETTINGS, ORDINARY_TEXT};

// The first and the last number of bytes that are kept, and what is told: that an input is refused,
// or what is published of the whole term, but for some lines.
type Cut = (usize, usize, &'static str);

const OF_NO_SECTION: &str = "\
0 term.text
6
7
8
9
10 error 0
11
12
13
14
15 bundle ann [] *
16 bundle bob [] *
17 bundle cat [] *
18 turn 1 ann [] *
19 turn 1 bob [] *
20 turn 1 cat [] *
21 final ann []
22 final bob []
23 final cat []
24
25
26
27
";

const OF_A: &str = "\
0 term.text
6 start A 103
7
8
9
12
13
14
15 bundle ann [A] +*n
16 bundle bob [] -*
17 bundle cat [] -*
18 turn 1 ann [A] +*n
19 turn 1 bob [] -*
20 turn 1 cat [] -*
21 final ann [A]
22 final bob []
23 final cat []
25
26
27
";

const OF_A_AND_B: &str = "\
0 term.text
6 start A 103
8
9
13
14
16 bundle bob [] -*
17 bundle cat [] -*
19 turn 1 bob [] -*
20 turn 1 cat [] -*
22 final bob []
23 final cat []
26
27
";

const OF_A_B_AND_C: &str = "\
0 term.text
6 start A 103
9
14
17 bundle cat [] -*
20 turn 1 cat [] -*
23 final cat []
27
";

const OF_NOBODY: &str = "\
0 term.text
3
4
5
10 error 0
11 price A 0
15
16
17
18
19
20
21
22
23
24 used A 0 1
25 used B 0 2
26 used C 0 2
27 used D 0 1
";

const OF_ANN: &str = "\
0 term.text
3 budget ann 100
4
5
10 error 0
11 price A 0
16
17
19
20
22
23
26 used C 0 2
27 used D 0 1
";

const OF_ANN_AND_BOB: &str = "\
0 term.text
3 budget ann 102
4 budget bob 101
5
11 price A 102
17
20
23
27 used D 0 1
";

const OF_ALL: &str = "\
0 term.text
";

const CATALOGUE_CUTS: [Cut; 20] = [
    (0, 36, "3\ninput 1 row 1: header\n"),
    (37, 38, OF_NO_SECTION),
    (39, 48, "3\ninput 1 row 2: fields\n"),
    (49, 49, OF_A),
    (50, 58, "3\ninput 1 row 2: meetings\n"),
    (59, 59, OF_A),
    (60, 69, "3\ninput 1 row 2: meetings\n"),
    (70, 71, OF_A),
    (72, 81, "3\ninput 1 row 3: fields\n"),
    (82, 82, OF_A_AND_B),
    (83, 91, "3\ninput 1 row 3: meetings\n"),
    (92, 93, OF_A_AND_B),
    (94, 103, "3\ninput 1 row 4: fields\n"),
    (104, 104, OF_A_B_AND_C),
    (105, 113, "3\ninput 1 row 4: meetings\n"),
    (114, 115, OF_A_B_AND_C),
    (116, 125, "3\ninput 1 row 5: fields\n"),
    (126, 126, OF_ALL),
    (127, 135, "3\ninput 1 row 5: meetings\n"),
    (136, 137, OF_ALL),
];

const ROLL_CUTS: [Cut; 11] = [
    (0, 29, "3\ninput 2 row 1: header\n"),
    (30, 31, OF_NOBODY),
    (32, 41, "3\ninput 2 row 2: fields\n"),
    (42, 42, "3\ninput 2 row 2: number in column 4\n"),
    (43, 44, OF_ANN),
    (45, 54, "3\ninput 2 row 3: fields\n"),
    (55, 55, "3\ninput 2 row 3: number in column 4\n"),
    (56, 57, OF_ANN_AND_BOB),
    (58, 67, "3\ninput 2 row 4: fields\n"),
    (68, 68, "3\ninput 2 row 4: number in column 4\n"),
    (69, 70, OF_ALL),
];

const SETTINGS_CUTS: [Cut; 2] = [(0, 86, "3\ninput 3 row 0: not json\n"), (87, 87, OF_ALL)];

// Each front of these lengths has this answer.
fn try_cut<R: Threads + Wait + Sync + Abort>(
    rt: &R,
    alloc: Global,
    line: &str,
    whole: &[u8],
    cut: &Cut,
) -> Result<(), Fail> {
    let (first, last, answers) = cut;
    for kept in *first..=*last {
        try_front(rt, alloc, line, whole, kept, answers)?;
    }
    Ok(())
}

// What is told where the first so many bytes alone are there of an input.
fn try_front<R: Threads + Wait + Sync + Abort>(
    rt: &R,
    alloc: Global,
    line: &str,
    whole: &[u8],
    kept: usize,
    answers: &str,
) -> Result<(), Fail> {
    let Some(front) = whole.get(..kept) else {
        return Err(Fail::from("not so many bytes"));
    };
    try_run(rt, alloc, line, &[("CUT", front)], answers)
}

#[test]
fn cut_catalogues(rt: HostRuntime) -> Result<(), Fail> {
    let line = "run 2 CUT term.stu term.set term.s1";
    for cut in &CATALOGUE_CUTS {
        try_cut(&rt, rt.alloc(), line, ORDINARY_CATALOGUE, cut)?;
    }
    Ok(())
}

#[test]
fn cut_rolls_and_settings(rt: HostRuntime) -> Result<(), Fail> {
    let line = "run 2 term.cat CUT term.set term.s1";
    for cut in &ROLL_CUTS {
        try_cut(&rt, rt.alloc(), line, ORDINARY_ROLL, cut)?;
    }
    let line = "run 2 term.cat term.stu CUT term.s1";
    for cut in &SETTINGS_CUTS {
        try_cut(&rt, rt.alloc(), line, ORDINARY_SETTINGS, cut)?;
    }
    Ok(())
}

// The line that a text ends in is missing.
#[test]
fn cut_published_texts(rt: HostRuntime) -> Result<(), Fail> {
    let alloc = rt.alloc();
    let whole = ORDINARY_TEXT.as_bytes();
    let mut line: u32 = 1;
    for (kept, byte) in whole.iter().enumerate() {
        let answer = format!(in alloc; "8\nfinding: line {line} missing\n")?;
        let command = "check term.cat term.stu term.set CUT term.s1";
        try_front(&rt, alloc, command, whole, kept, answer.as_str())?;
        if *byte == b'\n' {
            line = line.saturating_add(1);
        }
    }
    Ok(())
}
