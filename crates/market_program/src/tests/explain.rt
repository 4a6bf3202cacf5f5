// `explain` over texts in memory.
use super::*;

const REASONS: &str = "\
== alone price
explain term.cat term.stu term.set term.text bob A term.s1
=> 0
bob A alone price
== beside credits
explain tight.cat tight.stu tight.set tight.text ann B tight.s1
=> 0
ann B beside credits
best [B] 40
lost 10
tree +x!-*
== unrated
explain term.cat term.stu term.set term.text ann C term.s1
=> 0
ann C unrated
== beside price
explain TWO STU ACCEPT9 TEXT w B S1
-- STU
student,budget,credits,courses
u,100,10,2
v,100,10,2
w,150,10,2
-- TEXT
course-match 1
order 1 1 1 1 1 1
budget u 100
budget v 100
budget w 150
start A 0
start B 0
error 8
price A 101
price B 101
bundle u [] --*
bundle v [] --*
bundle w [A] +-*n
turn 1 w [A] +-*n
turn 1 u [B] -+*n
turn 1 v [] --*
turn 2 w [A] +-*n
turn 2 u [B] -+*n
turn 2 v [] --*
final u [B]
final v []
final w [A]
used A 1 1
used B 1 1
end
-- S1
rate u A 60
rate u B 50
rate v A 50
rate v B 60
rate w A 60
rate w B 59
=> 0
w B beside price
best [B] 59
lost 1
tree +x!*
== alone courses
explain tight.cat tight.stu tight.set tight.text bob B tight.s1
=> 0
bob B alone courses
== less
explain single.cat STU single.set TEXT ann B S1
-- STU
student,budget,credits,courses
ann,0,10,2
-- TEXT single.text
2 order 1 1 1
9 bundle ann [A] ++n*n
10 turn 1 ann [A] ++n*n
-- S1
rate ann A 50
rate ann B 50
pair ann A B -200
=> 0
ann B less
best [B] 50
lost 0
tree +!n!*
== alone credits
explain tight.cat tight.stu tight.set tight.text ann C tight.s1
=> 0
ann C alone credits
== a section with a free seat clashes with what the student holds
explain CAT term.stu term.set TEXT cat A term.s1
-- CAT term.cat
2 A,ACCT,3,1,M0900-1020;W0900-1020
-- TEXT term.text
10 error 0
11 price A 0
16 bundle bob [A,C] ++*nn
17 bundle cat [D] +n+*n
19 turn 1 bob [A,C] ++*nn
20 turn 1 cat [D] +n+*n
22 final bob [A,C]
24 used A 2 3
=> 0
cat A clash D
best [A] 20
lost 25
tree !-*
== held
explain single.cat single.stu single.set single.text ann A single.s1
=> 0
ann A held
== beside courses
explain single.cat single.stu single.set single.text ann B single.s1
=> 0
ann B beside courses
best [B] 50
lost 0
tree +x!*
== unknown section
explain single.cat single.stu single.set single.text ann Q single.s1
=> 9
no such name: word 7
== unknown student comes first
explain single.cat single.stu single.set single.text zoe Q single.s1
=> 9
no such name: word 6
";

// What is told first.
const ORDER: &str = "\
== a byte order mark is no part of a published text
explain single.cat single.stu single.set TEXT ann A single.s1
-- TEXT single.text
1 \u{feff}course-match 1
=> 8
finding: line 1 form
== a finding comes before a reason
explain single.cat single.stu single.set TEXT ann A single.s1
-- TEXT single.text
6 error 00
=> 8
finding: line 6 form
== an unknown name comes before a finding
explain single.cat single.stu single.set TEXT zoe A single.s1
-- TEXT
forged
=> Unknown { word: 6 }
no such name: word 6
== an input that can not be read comes before an unknown name
explain single.cat single.stu single.set single.text zoe A NONE
=> ShelfFault { input: 5 }
input 5 can not be read
";

#[test]
fn reasons_are_told(rt: HostRuntime) -> Result<(), Fail> {
    try_cases(&rt, rt.alloc(), REASONS)?;
    try_cases(&rt, rt.alloc(), ORDER)
}
