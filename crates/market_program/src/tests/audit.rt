// `audit` over texts in memory.
use super::*;

const AUDITED: &str = "\
== an ordinary term
audit 1,2,16 term.cat term.stu term.set term.text term.s1
=> 0 term.envy
== four students of one seat
audit 1,2,16 four.cat four.stu four.set four.text four.s1
=> 0 four.envy
== equal budgets envy after the aftermarket
audit 1,2,16 equal.cat equal.stu equal.set equal.text equal.s1
=> 0 equal.envy
== a forged text
audit 1,2,16 equal.cat equal.stu equal.set TEXT equal.s1
-- TEXT equal.text
16 used X 0 1
=> 8
finding: used X
== carried tokens count for higher and lower
audit 1,2,16 lower.cat lower.stu lower.set lower.text lower.s1
=> 0 lower.envy
== envy beyond one section
audit 1,2,16 beyond.cat beyond.stu beyond.set beyond.text beyond.s1
=> 0 beyond.envy
== an empty roll
audit 1,2,16 nobody.cat nobody.stu nobody.set nobody.text nobody.s1
=> 0
settled total 0 0 0
final total 0 0 0
== sees only what is of use
audit 1,2,16 useful.cat useful.stu useful.set useful.text useful.s1
=> 0 useful.envy
";

#[test]
fn texts_are_audited(rt: HostRuntime) -> Result<(), Fail> {
    try_cases(&rt, rt.alloc(), AUDITED)
}
