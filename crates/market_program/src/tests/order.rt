// What is told first where several inputs are at fault: the input that comes first, and inputs
// before what the text is found to be.
use super::*;

const FIRST_INPUTS: &str = "\
== a text that can not be read comes before such a session
check term.cat term.stu term.set NONE NONE
explain term.cat term.stu term.set NONE bob A NONE
audit 2 term.cat term.stu term.set NONE NONE
=> ShelfFault { input: 4 }
input 4 can not be read
== a text that can not be read comes before such requests
hall term.cat term.stu NONE NONE
=> ShelfFault { input: 3 }
input 3 can not be read
== a session that can not be read comes before a finding
check term.cat term.stu term.set EMPTY NONE
explain term.cat term.stu term.set EMPTY bob A NONE
audit 2 term.cat term.stu term.set EMPTY NONE
=> ShelfFault { input: 5 }
input 5 can not be read
== requests that can not be read come before a finding
hall term.cat term.stu EMPTY NONE
=> ShelfFault { input: 4 }
input 4 can not be read
== the first of two sessions that can not be read
check term.cat term.stu term.set term.text NONE NONE
demand 2 four.cat four.stu four.set X=102 NONE NONE
=> ShelfFault { input: 5 }
input 5 can not be read
== a refused input comes before one that can not be read
run 2 term.cat term.stu EMPTY NONE
check term.cat term.stu EMPTY NONE NONE
=> 3
input 3 row 0: not json
";

#[test]
fn the_first_fault_is_told(rt: HostRuntime) -> Result<(), Fail> {
    try_cases(&rt, rt.alloc(), FIRST_INPUTS)
}
