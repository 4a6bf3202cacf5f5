// `hall` over texts in memory.
use super::*;

const HALLS: &str = "\
== dropped seat goes to the first waiting
hall equal.cat equal.stu equal.text dropped.requests
=> 0 dropped.told
== every reply
hall five.cat five.stu five.text each.requests
=> 0 each.told
== no requests
hall equal.cat equal.stu equal.text EMPTY
=> 0
final u [X]
final v []
used X 1 1
== ratings and budgets play no part
hall term.cat term.stu TEXT first
-- TEXT term.text
3 budget ann 1
23 final cat [B]
-- first
add bob B
add bob D
=> 0
entry 1 add bob B: queued 0
entry 1 add bob D: added
final ann [A,B]
final bob [C,D]
final cat [B]
wait B bob
used A 1 1
used B 2 2
used C 1 2
used D 1 1
== requests with byte order mark and comments
hall equal.cat equal.stu equal.text first
-- first
\u{feff}# drop and add\r
drop u X\r
\r
  add\tv  X  \r
add u X close=> 0
entry 1 drop u X: dropped 0
entry 1 add v X: added
entry 1 unreadable: unreadable
final u []
final v [X]
used X 1 1
== seats are those of the catalogue
hall equal.cat equal.stu TEXT first
-- TEXT equal.text
16 used X 0 7
-- first
add v X
=> 0
entry 1 add v X: queued 0
final u [X]
final v []
wait X v
used X 1 1
== two lapse before the next
hall wait.cat wait.stu wait.text first
-- first
add v A
add w A
add x A
add y A
add v B
add w B
drop u A
add u A
drop x A
drop y A
=> 0
entry 1 add v A: queued 0
entry 1 add w A: queued 1
entry 1 add x A: queued 2
entry 1 add y A: queued 3
entry 1 add v B: added
entry 1 add w B: added
entry 1 drop u A: dropped 2 to x
entry 1 add u A: queued 1
entry 1 drop x A: dropped 0 to y
entry 1 drop y A: dropped 0 to u
final u [A]
final v [B]
final w [B]
final x []
final y []
used A 1 1
used B 2 9
used C 0 9
== waiting list is printed
hall five.cat five.stu five.text waiting.requests
=> 0 waiting.told
== waiting student lapses
hall X+Y equal.stu TEXT first
-- TEXT equal.text
5+ start Y 0
7+ price Y 0
16+ used Y 0 2
-- first
add v X
add v Y
drop u X
add u X
leave u X
=> 0
entry 1 add v X: queued 0
entry 1 add v Y: added
entry 1 drop u X: dropped 1
entry 1 add u X: added
entry 1 leave u X: not-waiting
final u [X]
final v [Y]
used X 1 1
used Y 1 2
== who is given a seat still waits for another
hall useful.cat useful.stu useful.text first
-- first
add v A
add v B
drop u A
drop u B
=> 0
entry 1 add v A: queued 0
entry 1 add v B: queued 0
entry 1 drop u A: dropped 0 to v
entry 1 drop u B: dropped 0 to v
final u []
final v [A,B]
used A 1 1
used B 1 1
== the last seat goes to the first to ask
hall X+Y equal.stu TEXT first second
-- first
drop u X
add u X
-- second
add v X
-- TEXT equal.text
5+ start Y 0
7+ price Y 0
16+ used Y 0 2
=> 0
entry 1 drop u X: dropped 0
entry 1 add u X: added
entry 2 add v X: queued 0
final u [X]
final v []
wait X v
used X 1 1
used Y 0 2
=> 0 last.told
=> 0 last.told
1 entry 2 add v X: queued 0
2 entry 1 drop u X: dropped 0 to v
";

// Texts with which no hall opens.
const NO_HALLS: &str = "\
== forged final bundle beyond a cap
hall term.cat term.stu TEXT EMPTY
-- TEXT term.text
21 final ann [A,B,C]
=> 8
finding: student ann infeasible
== forged final bundle that clashes
hall term.cat term.stu TEXT EMPTY
-- TEXT term.text
21 final ann [A,D]
=> 8
finding: student ann infeasible
== forged final bundles beyond the seats
hall equal.cat equal.stu TEXT EMPTY
-- TEXT equal.text
15 final v [X]
=> 8
finding: seats X 2 of 1
== text that is no publication
hall equal.cat equal.stu TEXT EMPTY
-- TEXT equal.text
18
=> 8
finding: line 17 missing
== a byte order mark is no part of a published text
hall equal.cat equal.stu TEXT EMPTY
-- TEXT equal.text
1 \u{feff}course-match 1
=> 8
finding: line 1 form
";

#[test]
fn halls(rt: HostRuntime) -> Result<(), Fail> {
    for cases in [HALLS, NO_HALLS] {
        try_cases(&rt, rt.alloc(), cases)?;
    }
    Ok(())
}
