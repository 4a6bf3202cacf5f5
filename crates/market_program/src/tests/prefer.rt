// `prefer` over texts in memory.
use super::*;

const DESK: &str = "\
== adjustments stay when a rating goes
prefer THREE ANN+BOB staying.said
=> 0 staying.told
== clear removes ratings and adjustments
prefer THREE ANN+BOB S1
-- S1
rate ann A 4
rate bob A 3
pair ann A B 9
clear ann
rate ann C 1
clear zoe
=> 0
entry 1 done rate ann A 4
entry 1 done rate bob A 3
entry 1 done pair ann A B 9
entry 1 done clear ann
entry 1 done rate ann C 1
entry 1 no-student clear zoe
rate ann C 1
rate bob A 3
== nothing counts after close
prefer ONE ANN S1
-- S1
rate ann A 5
close
rate ann A 9
close
=> 0
entry 1 done rate ann A 5
entry 1 done close
entry 1 closed rate ann A 9
entry 1 closed close
rate ann A 5
== preferences student by student
prefer THREE ANN+BOB students.said
=> 0 students.told
== replies in their order
prefer THREE ANN+BOB S1
-- S1
rate zoe Q 101
rate ann Q 101
pair ann Q Q 999
pair zoe A A 1
pair ann A A 999
rate ann A -1
rate ann A -0
pair ann A B -201
pair ann A B 0
rate ann A 0
=> 0
entry 1 no-student rate zoe Q 101
entry 1 no-section rate ann Q 101
entry 1 no-section pair ann Q Q 999
entry 1 no-student pair zoe A A 1
entry 1 same-pair pair ann A A 999
entry 1 out-of-range rate ann A -1
entry 1 unreadable unreadable
entry 1 out-of-range pair ann A B -201
entry 1 done pair ann A B 0
entry 1 done rate ann A 0
== bytes that are no text
prefer THREE ANN+BOB BYTES
=> 0
entry 1 unreadable unreadable
entry 1 done rate ann A 1
rate ann A 1
== lines that are commands and lines that are not
prefer THREE ANN+BOB S1
-- S1
rate ann A 1\r
\t rate \t ann  B 2 \r
\r
 \t
# rate ann C 3
 #rate ann C 3
#
rate ann C 3 #
close\r\r
RATE ann A 1
rate ann A
rate ann A 1 1
rate ann A 1000000
rate ann A 999999
rate ann A --1
rate ann A 1.0
rate ann A +1
rate an!n A 1
pair ann A B
clear
clear ann bob
close now
rate\u{a0}ann A 1
rate ann C 9\r=> 0
entry 1 done rate ann A 1
entry 1 done rate ann B 2
entry 1 unreadable unreadable
entry 1 unreadable unreadable
entry 1 unreadable unreadable
entry 1 unreadable unreadable
entry 1 unreadable unreadable
entry 1 unreadable unreadable
entry 1 out-of-range rate ann A 999999
entry 1 unreadable unreadable
entry 1 unreadable unreadable
entry 1 unreadable unreadable
entry 1 unreadable unreadable
entry 1 unreadable unreadable
entry 1 unreadable unreadable
entry 1 unreadable unreadable
entry 1 unreadable unreadable
entry 1 unreadable unreadable
entry 1 done rate ann C 9
rate ann A 1
rate ann B 2
rate ann C 9
== session with two byte order marks
prefer THREE ANN+BOB S1
-- S1
\u{feff}\u{feff}rate ann A 1
rate ann B 2
=> 0
entry 1 unreadable unreadable
entry 1 done rate ann B 2
rate ann B 2
";

const ROLLS: &str = "\
== refused nine courses
prefer TWO STU EMPTY
-- STU
student,budget,credits,courses
ann,900000,800,8
bob,0,0,9
=> 3
input 2 row 3: number in column 4
== refused repeated student
prefer TWO STU EMPTY
-- STU
student,budget,credits,courses
ann,1,1,1
bob,1,1,1
ann,2,2,2
=> 3
input 2 row 4: repeats row 2
== refused roll with the header of a catalogue
prefer TWO none.cat EMPTY
=> 3
input 2 row 1: header
== refused roll with a field more
prefer TWO STU EMPTY
-- STU
student,budget,credits,courses
ann,1,1,1
bob,1,1,1,1
=> 3
input 2 row 3: fields
== refused catalogue comes before refused roll
prefer CAT EMPTY EMPTY
-- CAT
section,course,seats,credits,meetings
section,course,seats,credits,meetings
=> 3
input 1 row 2: number in column 3
== carried tokens header and four fields
prefer TWO STU EMPTY
-- STU
student,budget,credits,courses,carry
ann,1,1,1
=> 3
input 2 row 2: fields
== carry that passes the limit only together with the base
prefer TWO STU EMPTY
-- STU
student,budget,credits,courses,carry
ann,100,1,1,899900
bob,100,1,1,899901
=> 3
input 2 row 3: number in column 5
== carried tokens are no preference
prefer TWO STU RATE-A
-- STU
student,budget,credits,courses,carry
ann,100,1,1,899900
=> 0
entry 1 done rate ann A 9
rate ann A 9
";

// Each answer is what some order of the sessions gives.
const TWO_SESSIONS: &str = "\
== close in one session closes the other
prefer ONE ANN S1 S2
-- S1
close
-- S2
rate ann A 20
rate ann A 30
=> 0
entry 1 done close
entry 2 closed rate ann A 20
entry 2 closed rate ann A 30
=> 0
entry 2 done rate ann A 20
entry 1 done close
entry 2 closed rate ann A 30
rate ann A 20
=> 0
entry 2 done rate ann A 20
entry 2 done rate ann A 30
entry 1 done close
rate ann A 30
== two sessions rate one section
prefer ONE ANN S1 S2
-- S1
rate ann A 10
-- S2
rate ann A 20
=> 0
entry 1 done rate ann A 10
entry 2 done rate ann A 20
rate ann A 20
=> 0
entry 2 done rate ann A 20
entry 1 done rate ann A 10
rate ann A 10
";

// A session as a spreadsheet writes it, one that is missing, and nobody.
const SESSIONS: &str = "\
== session with byte order mark and line ends of a spreadsheet
prefer THREE ANN+BOB S1
-- S1
\u{feff}rate ann A 1\r
close\r
=> 0
entry 1 done rate ann A 1
entry 1 done close
rate ann A 1
== missing second session
prefer ONE ANN EMPTY NONE
=> 2
input 4 can not be read
== empty roll
prefer THREE nobody.stu S1
-- S1
rate ann A 1
close
=> 0
entry 1 no-student rate ann A 1
entry 1 done close
";

#[test]
fn preferences(rt: HostRuntime) -> Result<(), Fail> {
    for cases in [DESK, ROLLS, TWO_SESSIONS, SESSIONS] {
        try_cases(&rt, rt.alloc(), cases)?;
    }
    Ok(())
}

const TAKEN: &str = "0\nentry 64 done rate ann A 64\nrate ann A 64\n";

const NO_FORM: &str = "1
usage: run, check, prefer, demand, quote, make, explain, hall, audit
";

// Sixty-three sessions without a command, and one with one. A name may stand for several sessions.
#[test]
fn sixty_four_sessions(rt: HostRuntime) -> Result<(), Fail> {
    let alloc = rt.alloc();
    let files: [File; 2] = [("S1", b"# nothing\n"), ("LAST", b"rate ann A 64\n")];
    let mut line = String::from_str(alloc, "prefer ONE ANN")?;
    for _ in 0..63u32 {
        line.push_str(" S1")?;
    }
    line.push_str(" LAST")?;
    try_run(&rt, alloc, line.as_str(), &files, TAKEN)?;
    line.push_str(" LAST")?;
    try_run(&rt, alloc, line.as_str(), &files, NO_FORM)
}
