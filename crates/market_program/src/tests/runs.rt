// `run` over texts in memory.
use super::*;

const MARKETS: &str = "\
== an ordinary term
run 1,2,16 term.cat term.stu term.set term.s1
=> 0 term.text
== four students of one seat
run 1,2,16 four.cat four.stu four.set four.s1
=> 0 four.text
== the least error is not accepted
run 1,2,16 four.cat four.stu ACCEPT8 four.s1
=> 5
order 1 1 1 1
no prices: least error 9
== carried tokens raise the budget
run 1,2,16 carried.cat carried.stu ACCEPT1 equal.s1
=> 0 carried.text
== no sections
run 1,2,16 none.cat none.stu term.set term.s1
=> 0 none.text
== settings that are no object
run 1,2,16 four.cat four.stu SET four.s1
-- SET
[]=> 3
input 3 row 0: not an object
== two sessions without prices
run 2 four.cat four.stu ACCEPT8 FIRST-TWO LAST-TWO
=> NoPrices { least: 9 }
order any
no prices: least error 9
";

// Small terms: seats that nobody takes or that there are not, ties, carried tokens, the moves of
// the search.
const SMALL_TERMS: &str = "\
== empty roll
run 2 nobody.cat nobody.stu nobody.set nobody.s1
=> 0 nobody.text
== student without ratings
run 2 nobody.cat STU nobody.set nobody.s1
-- STU
student,budget,credits,courses
ann,100,10,2
=> 0
course-match 1
order
budget ann 100
start A 0
error 0
price A 0
bundle ann [] *
turn 1 ann [] *
final ann []
used A 0 2
end
== section without seats
run 2 CAT equal.stu SET equal.s1
-- CAT
section,course,seats,credits,meetings
X,XX,0,1,
-- SET
{\"seed\":0,\"spread\":0,\"accept\":4,\"turns\":0,\"tabu\":5,\"patience\":3,\"steps\":[1],\"raise\":10}=> 0
course-match 1
order 1 1
budget u 100
budget v 100
start X 0
error 4
price X 101
bundle u [] -*
bundle v [] -*
turn 1 u [] -*
turn 1 v [] -*
final u []
final v []
used X 0 0
end
== aftermarket fills a free seat
run 2 equal.cat equal.stu equal.set equal.s1
=> 0 equal.text
== search moves by own price
run 2 equal.cat STU SET equal.s1
-- STU equal.stu
3 v,105,10,1
-- SET
{\"seed\":0,\"spread\":0,\"accept\":0,\"turns\":3,\"tabu\":5,\"patience\":3,\"steps\":[1],\"raise\":10}=> 0 carried.text
1 course-match 1
5 start X 101
6 error 0
== ties of excess raise the lowest ordinal
run 2 ties.cat ties.stu ties.set ties.s1
=> 0 ties.text
== aftermarket order by unraised budget
run 2 CAT STU equal.set S1
-- CAT
section,course,seats,credits,meetings
X,XX,2,1,
-- STU
student,budget,credits,courses
u,100,10,1
v,120,10,1
w,120,10,1
-- S1
rate u X 5
rate v X 5
rate w X 5
=> 0
course-match 1
order 1 1 1
budget u 100
budget v 120
budget w 120
start X 0
error 1
price X 101
bundle u [] -*
bundle v [X] +*n
bundle w [X] +*n
turn 1 v [X] +*n
turn 1 w [X] +*n
turn 1 u [] -*
final u []
final v [X]
final w [X]
used X 2 2
end
== aftermarket swaps in later passes
run 2 swaps.cat swaps.stu swaps.set swaps.s1
=> 0 swaps.text
== restarts draw prices
run 2 THREE STU SET S1
-- STU
student,budget,credits,courses
u,100,10,2
v,101,10,2
w,102,10,2
x,103,10,2
-- SET
{\"seed\":5,\"spread\":1,\"accept\":1,\"turns\":60,\"tabu\":2,\"patience\":1,\"steps\":[40],\"raise\":20}-- S1
rate u A 50
rate u B 40
rate v A 50
rate v C 45
rate w B 50
rate w C 20
rate x A 60
rate x B 61
pair x A B -30
=> 0
course-match 1
order 1 1 1 1 1 1 1 1 1
budget u 100
budget v 103
budget w 103
budget x 106
start A 80
start B 104
start C 40
error 1
price A 101
price B 104
price C 40
bundle u [] --*
bundle v [A] +-*n
bundle w [C] -+*n
bundle x [B] +n+*n
turn 1 x [B] -+*n
turn 1 v [A] +-*n
turn 1 w [C] -+*n
turn 1 u [] --*
final u []
final v [A]
final w [C]
final x [B]
used A 1 1
used B 1 1
used C 1 1
end
== no prices after restarts
run 2 CAT STU SET S1
-- CAT
section,course,seats,credits,meetings
X,XX,1,1,
Y,YY,1,1,
-- STU
student,budget,credits,courses
u,100,10,1
v,100,10,1
w,100,10,1
x,100,10,1
-- SET
{\"seed\":3,\"spread\":0,\"accept\":0,\"turns\":30,\"tabu\":1,\"patience\":1,\"steps\":[7,1],\"raise\":10}-- S1
rate u X 50
rate v X 50
rate w X 50
rate x X 50
rate u Y 2
rate v Y 2
=> 5
order 1 1 1 1 1 1
no prices: least error 2
== carried tokens at the limit
run 2 equal.cat STU equal.set equal.s1
-- STU carried.stu
3 v,100,10,1,899900
=> 0 carried.text
4 budget v 900000
== carried tokens of nobody still version two
run 2 equal.cat STU equal.set equal.s1
-- STU carried.stu
3 v,100,10,1,0
=> 0 equal.text
1 course-match 2
== part terms make version two
run 2 CAT equal.stu equal.set equal.s1
-- CAT
section,course,seats,credits,meetings,parts
X,XX,1,1,,12
=> 0 equal.text
1 course-match 2
";

// Byte order marks, and lines that end in CR LF.
const OF_SPREADSHEETS: &str = "\
== ordinary term as a spreadsheet writes it
run 2 CRLF-TERM term.stu term.set term.s1
=> 0 term.text
== every input as a spreadsheet writes it
run 2 CRLF-TERM STU SET S1
-- STU
\u{feff}student,budget,credits,courses\r
ann,100,10,2\r
bob,101,10,2\r
cat,102,10,2\r
-- SET
\u{feff}{\"seed\":0,\"spread\":2,\"accept\":1,\"turns\":5,\"tabu\":5,\"patience\":3,\"steps\":[1],\"raise\":10}-- S1
\u{feff}rate ann A 60\r
rate ann B 30\r
rate bob A 50\r
rate bob C 40\r
pair bob A C 10\r
rate cat A 20\r
rate cat D 45\r
close\r
=> 0 term.text
";

// What is refused.
const REFUSED: &str = "\
== refused unclosed quote hides bad meetings
run 2 CAT term.stu term.set term.s1
-- CAT
section,course,seats,credits,meetings
A,AA,2,1,\"M0900-10=> 3
input 1 row 2: meetings
== refused repeated section
run 2 CAT term.stu term.set term.s1
-- CAT
section,course,seats,credits,meetings
A,AA,2,1,
A,BB,2,1,
=> 3
input 1 row 3: repeats row 2
== refused leading zeros in seats
run 2 CAT term.stu term.set term.s1
-- CAT
section,course,seats,credits,meetings
A,AA,007,1,
=> 3
input 1 row 2: number in column 3
== refused too few fields
run 2 CAT term.stu term.set term.s1
-- CAT
section,course,seats,credits,meetings
A,AA,2,1
=> 3
input 1 row 2: fields
== refused empty catalogue file
run 2 EMPTY term.stu term.set term.s1
=> 3
input 1 row 1: header
== refused spread out of range
run 2 term.cat term.stu SET term.s1
-- SET
{\"seed\":0,\"spread\":50,\"accept\":0,\"turns\":0,\"tabu\":5,\"patience\":3,\"steps\":[1],\"raise\":10}=> 3
input 3 row 0: range of spread
== carried tokens beyond the limit
run 2 equal.cat STU equal.set equal.s1
-- STU carried.stu
3 v,100,10,1,899901
=> 3
input 2 row 3: number in column 5
== first bad input is told
run 2 term.cat EMPTY SET term.s1
-- SET
[]=> 3
input 2 row 1: header
== missing catalogue
run 2 NONE term.stu term.set term.s1
=> 2
input 1 can not be read
== missing session
run 2 term.cat term.stu term.set NONE
=> 2
input 4 can not be read
== refusal comes before missing session
run 2 term.cat term.stu SET NONE
-- SET
[]=> 3
input 3 row 0: not an object
";

#[test]
fn markets_are_run(rt: HostRuntime) -> Result<(), Fail> {
    for cases in [MARKETS, SMALL_TERMS, OF_SPREADSHEETS, REFUSED] {
        try_cases(&rt, rt.alloc(), cases)?;
    }
    Ok(())
}
