// `quote` over texts in memory.
use super::*;

const QUOTED: &str = "\
== adjustment joins two sections
quote THREE S1 ann 10 2
-- S1
rate ann A 90
rate ann B 1
rate ann C 1
pair ann C B 200
=> 0
bundle ann [B,C]
utility 202
== bundle of no worth stays empty
quote TWO S1 ann 10 8
-- S1
rate ann A 0
rate ann B 0
pair ann A B 200
=> 0
bundle ann []
utility 0
== greatest numbers and names
quote CAT S1 ssssssssssssssssssssssssssssssss 800 8
-- CAT
section,course,seats,credits,meetings
NNNNNNNNNNNNNNNNNNNNNNNNNNNNNNNN,CCCCCCCCCCCCCCCCCCCCCCCCCCCCCCCC,9999,100,U0000-0059;U0100-0159;U0200-0259;U0300-0359;U0400-0459;U0500-0559;U0600-0659;U0700-0759;U0800-0859;U0900-0959
a-Z_0.9,-,0,0,M0000-2359
-- S1
rate ssssssssssssssssssssssssssssssss NNNNNNNNNNNNNNNNNNNNNNNNNNNNNNNN 100
rate ssssssssssssssssssssssssssssssss a-Z_0.9 100
=> 0
bundle ssssssssssssssssssssssssssssssss [NNNNNNNNNNNNNNNNNNNNNNNNNNNNNNNN,a-Z_0.9]
utility 200
== nothing counts after close
quote TWO S1 ann 10 8
-- S1
rate ann B 5
close
rate ann A 90
=> 0
bundle ann [B]
utility 5
== one of many meetings clashes
quote CAT RATE-A+B ann 10 8
-- CAT TWO
2 A,AA,1,1,M0900-1000;W0900-1000;F0900-1000
3 B,BB,1,1,T0900-1000;F0959-1100
=> 0 takes.A
== other students have no effect
quote TWO S1 ann 10 8
-- S1
rate bob A 90
rate ann B 5
clear bob
=> 0
bundle ann [B]
utility 5
== quoted fields and lone carriage returns
quote CAT S1 ann 10 8
-- CAT
\r\r\"section\",\"course\",seats,credits,\"meet\"ings\r\"A\"1,AA,\"1\",1,\"M0900-1020;T0900-1020\"\r\r
B,\"BB\",1,1,\"\"-- S1
rate ann A1 10
rate ann B 10
=> 0
bundle ann [A1,B]
utility 20
== tie of two sections and one
quote CAT S1 ann 2 8
-- CAT
section,course,seats,credits,meetings
A,AA,1,1,
B,BB,1,1,
C,CC,1,2,
-- S1
rate ann A 60
rate ann B 40
rate ann C 100
=> 0
bundle ann [A,B]
utility 100
== tie takes lowest ordinal
quote TWO TIE ann 10 1
=> 0
bundle ann [A]
utility 50
";

const REFUSED: &str = "\
== refused catalogue with two byte order marks
quote CAT RATE-A ann 10 8
-- CAT
\u{feff}\u{feff}section,course,seats,credits,meetings
A,AA,1,1,
B,BB,1,1,
=> 3
input 1 row 1: header
== refused too few fields
quote CAT RATE-A ann 10 8
-- CAT
section,course,seats,credits,meetings
A,AA,2,1
=> 3
input 1 row 2: fields
== refused first bad row is told
quote CAT RATE-A ann 10 8
-- CAT
section,course,seats,credits,meetings
A,AA,1,1,M
A,AA,x,1,
=> 3
input 1 row 2: meetings
== refusal comes before missing session
quote EMPTY NONE ann 10 8
=> 3
input 1 row 1: header
== missing catalogue
quote NONE RATE-A ann 10 8
=> 2
input 1 can not be read
== refused repeat names the first row
quote CAT RATE-A ann 10 8
-- CAT
section,course,seats,credits,meetings
A,AA,1,1,
B,BB,1,1,
C,CC,1,1,
B,BB,1,1,
=> 3
input 1 row 5: repeats row 3
== refused first bad column is told
quote CAT RATE-A ann 10 8
-- CAT
section,course,seats,credits,meetings
A,AA,x,y,z
=> 3
input 1 row 2: number in column 3
";

const PARTS: &str = "\
== part terms apart do not clash
quote CAT RATE-A+B ann 10 8
-- CAT PARTS
2 A,AA,1,1,M0900-1020,1
3 B,BB,1,1,M0900-1020,2
=> 0 takes.A+B
== part terms shared do clash
quote CAT RATE-A+B ann 10 8
-- CAT PARTS
2 A,AA,1,1,M0900-1020,1
3 B,BB,1,1,M0900-1020,12
=> 0 takes.A
== part terms spelt backwards
quote CAT RATE-A+B ann 10 8
-- CAT PARTS
2 A,AA,1,1,M0900-1020,1
3 B,BB,1,1,M0900-1020,21
=> 3
input 1 row 3: parts
== part terms without their header
quote CAT RATE-A ann 10 8
-- CAT
section,course,seats,credits,meetings
A,AA,1,1,,1
=> 3
input 1 row 2: fields
";

// Clashes and caps, and what plays no part.
const BOUNDED: &str = "\
== adjustment keeps two sections apart
quote TWO S1 ann 10 8
-- S1
rate ann A 80
rate ann B 50
pair ann A B -200
=> 0
bundle ann [A]
utility 80
== touching meetings do not clash
quote CAT RATE-A+B ann 10 8
-- CAT TWO
2 A,AA,1,1,M0900-1020
3 B,BB,1,1,M1020-1140
=> 0 takes.A+B
== overlapping meetings clash
quote CAT RATE-A+B ann 10 8
-- CAT TWO
2 A,AA,1,1,M0900-1020
3 B,BB,1,1,M1019-1140
=> 0 takes.A
== meetings on other days do not clash
quote CAT RATE-A+B ann 10 8
-- CAT TWO
2 A,AA,1,1,T0900-1020
3 B,BB,1,1,R0900-1020
=> 0 takes.A+B
== sections of one course clash
quote CAT RATE-A+B ann 10 8
-- CAT TWO
3 B,AA,1,1,
=> 0 takes.A
== part terms of one course clash
quote CAT RATE-A+B ann 10 8
-- CAT PARTS
2 A,AA,1,1,,1
3 B,AA,1,1,,2
=> 0 takes.A
== no course allowed
quote TWO RATE-A+B ann 10 0
=> 0
bundle ann []
utility 0
== no credit allowed
quote CAT RATE-A+B ann 0 8
-- CAT TWO
3 B,BB,1,0,
=> 0
bundle ann [B]
utility 10
== tie with the empty bundle takes sections
quote TWO S1 ann 10 8
-- S1
rate ann A 10
rate ann B 10
pair ann A B -10
=> 0
bundle ann [A,B]
utility 10
== seats play no part
quote CAT RATE-A+B ann 10 8
-- CAT TWO
2 A,AA,0,1,
3 B,BB,0,1,
=> 0 takes.A+B
== empty session
quote TWO EMPTY ann 10 1
=> 0
bundle ann []
utility 0
== missing session
quote TWO NONE ann 10 8
=> 2
input 2 can not be read
";

#[test]
fn quotes(rt: HostRuntime) -> Result<(), Fail> {
    for cases in [QUOTED, REFUSED, PARTS, BOUNDED] {
        try_cases(&rt, rt.alloc(), cases)?;
    }
    Ok(())
}
