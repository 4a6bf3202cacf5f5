// `demand` over texts in memory.
use super::*;

const OF_ONE_SEAT: &str = "\
== four students of one seat
demand 1,2,16 four.cat four.stu four.set X=102 four.s1
=> 0 four.demand
== a price that is the budget is affordable
demand 1,2,16 four.cat four.stu four.set X=103 four.s1
=> 0 four.demand
4 bundle s3 []
6 count X 1
7 error 0
== the greatest price
demand 1,2,16 four.cat four.stu four.set X=1000001 four.s1
=> 0 four.demand
4 bundle s3 []
5 bundle s4 []
6 count X 0
== a section without a price has price 0
demand 1,2,16 four.cat four.stu four.set PRICES four.s1
-- PRICES
section,price
=> 0 four.demand
2 bundle s1 [X]
3 bundle s2 [X]
6 count X 4
7 error 9
== carried tokens are budget
demand 1,2,16 four.cat STU four.set X=103 four.s1
-- STU
student,budget,credits,courses,carry
s1,100,10,1,3
s2,101,10,1,0
s3,102,10,1,0
s4,103,10,1,0
=> 0 four.demand
2 bundle s1 [X]
4 bundle s3 []
== settings with a byte order mark
demand 1,2,16 four.cat four.stu SET X=102 four.s1
-- SET
\u{feff}{\"seed\":0,\"spread\":0,\"accept\":9,\"turns\":0,\"tabu\":5,\"patience\":3,\"steps\":[1],\"raise\":10}=> 0 four.demand
== two sessions in any order
demand 2 four.cat four.stu four.set X=102 FIRST-TWO LAST-TWO
=> 0 four.demand
1 order any
";

const REFUSED_PRICES: &str = "\
== an empty price file
demand 1,2,16 four.cat four.stu four.set EMPTY four.s1
=> 3
input 4 row 1: header
== a price above its limit
demand 1,2,16 four.cat four.stu four.set PRICES four.s1
-- PRICES
section,price
X,1000002
=> 3
input 4 row 2: number in column 2
== a price that is given twice
demand 1,2,16 four.cat four.stu four.set PRICES four.s1
-- PRICES
section,price
X,1
X,1
=> 3
input 4 row 3: repeats row 2
== a price of no section
demand 1,2,16 four.cat four.stu four.set PRICES four.s1
-- PRICES
section,price
X,1
Y,2
=> 3
input 4 row 3: name in column 1
== a price with three fields
demand 1,2,16 four.cat four.stu four.set PRICES four.s1
-- PRICES
section,price
X,1,2
=> 3
input 4 row 2: fields
";

const REFUSED_SETTINGS: &str = "\
== settings come before prices
demand 1,2,16 four.cat four.stu SET EMPTY four.s1
-- SET
{\"seed\":0,\"spread\":2,\"accept\":1,\"turns\":10001,\"tabu\":5,\"patience\":3,\"steps\":[1],\"raise\":10}=> 3
input 3 row 0: range of turns
== no settings
demand 1,2,16 four.cat four.stu EMPTY EMPTY four.s1
=> 3
input 3 row 0: not json
== two byte order marks
demand 1,2,16 four.cat four.stu SET EMPTY four.s1
-- SET
\u{feff}\u{feff}{\"seed\":0,\"spread\":2,\"accept\":1,\"turns\":5,\"tabu\":5,\"patience\":3,\"steps\":[1],\"raise\":10}=> 3
input 3 row 0: not json
== settings that are no object
demand 1,2,16 four.cat four.stu SET EMPTY four.s1
-- SET
[]=> 3
input 3 row 0: not an object
== a missing key comes before an unknown one
demand 1,2,16 four.cat four.stu SET EMPTY four.s1
-- SET
{\"seed\":0,\"spread\":2,\"accept\":1,\"turns\":5,\"tabu\":5,\"patience\":3,\"steps\":[1],\"Raise\":10}=> 3
input 3 row 0: missing raise
== an unknown key comes before a range
demand 1,2,16 four.cat four.stu SET EMPTY four.s1
-- SET
{\"seed\":0,\"spread\":50,\"accept\":1,\"turns\":5,\"tabu\":5,\"patience\":3,\"steps\":[1],\"raise\":10,\"note\":\"x\"}=> 3
input 3 row 0: unknown key
== the first key out of range
demand 1,2,16 four.cat four.stu SET EMPTY four.s1
-- SET
{\"seed\":0,\"spread\":2,\"accept\":1000000000001,\"turns\":5,\"tabu\":5,\"patience\":3,\"steps\":[1],\"raise\":51}=> 3
input 3 row 0: range of accept
";

const OF_A_TERM: &str = "\
== an ordinary term at its last prices
demand 1,2,16 term.cat term.stu term.set PRICES term.s1
-- PRICES
section,price
A,104
=> 0 term.demand
== free seats at price 0 are no error
demand 1,2,16 term.cat term.stu term.set PRICES term.s1
-- PRICES
section,price
A,104
B,1
C,1
D,1
=> 0 term.demand
2 bundle ann [A]
6 count B 0
9 error 5
";

#[test]
fn demands(rt: HostRuntime) -> Result<(), Fail> {
    for cases in [OF_ONE_SEAT, REFUSED_PRICES, REFUSED_SETTINGS, OF_A_TERM] {
        try_cases(&rt, rt.alloc(), cases)?;
    }
    Ok(())
}
