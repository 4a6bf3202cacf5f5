// Rolls, and their students.
use crate::tests::tables::{Table, long_table, roll_in, said_by_roll, told, try_cases};
use market_units::{Name, StudentNo, read_name};
use std::process::Abort;
use std::test::Fail;
use student_roll::Roll;

const HEADER: &str = "student,budget,credits,courses\n";

const CARRY_HEADER: &str = "student,budget,credits,courses,carry\n";

const BAD_HEADERS: &str = "\
|\r| => Header
 => Header
ann,1,2,3| => Header
student,credits,budget,courses|ann,1,2,3| => Header
student,budget,credits,courses,| => Header
student,budget,credits,carry,courses|u,0,10,0,1| => Header
";

const REFUSED: &str = "\
ann,1,2| => Fields { row: 2 }
ann,1,2,3,| => Fields { row: 2 }
a n,1,2,3| => Name { row: 2, column: 1 }
,x,y,z| => Name { row: 2, column: 1 }
ann,1,2,3||bob,1,2,3|ann,x,y,z| => Repeated { row: 4, earlier: 2 }
ann,1,2,3|bob,1,2,3|bob,1,2,3|bob,1,2,3| => Repeated { row: 4, earlier: 3 }
ann,900001,2,3| => Number { row: 2, column: 2 }
ann,007,801,9| => Number { row: 2, column: 2 }
ann,7,801,9| => Number { row: 2, column: 3 }
ann,7,0.5,9| => Number { row: 2, column: 3 }
ann,7,800,9| => Number { row: 2, column: 4 }
ann,7,800,-8|bob| => Number { row: 2, column: 4 }
ann,7,800,\"8|bob,7,800,8| => Number { row: 2, column: 4 }
u,0,10,1,0| => Fields { row: 2 }
";

const CARRIED: &str = "\
u,100,10,1,0|v,100,10,1,899901| => Number { row: 3, column: 5 }
u,900000,10,1,1| => Number { row: 2, column: 5 }
u,0,10,1,05| => Number { row: 2, column: 5 }
u,0,10,9,x| => Number { row: 2, column: 4 }
u,0,10,1| => Fields { row: 2 }
u,100,10,1,899900|v,0,10,1,900000| => version 2, u 100 10 1 899900, v 0 10 1 900000
";

// The name, the base, the two caps and what is carried over.
const READ: &str = "\
\u{feff}student,budget,credits,courses\r|ann,900000,800,8\r|\r|\"bob\",0,10,\"2\" => version 1, ann 900000 800 8 0, bob 0 10 2 0
student,budget,credits,courses => version 1, nobody
";

#[test]
fn a_roll_is_refused_at_its_first_fault(rt: HostRuntime) -> Result<(), Fail> {
    try_cases(&rt, rt.alloc(), Table::Roll, "", BAD_HEADERS)?;
    try_cases(&rt, rt.alloc(), Table::Roll, HEADER, REFUSED)
}

#[test]
fn a_carry_has_its_range_and_its_column(rt: HostRuntime) -> Result<(), Fail> {
    try_cases(&rt, rt.alloc(), Table::Roll, CARRY_HEADER, CARRIED)
}

#[test]
fn a_roll_says_what_its_records_say(rt: HostRuntime) -> Result<(), Fail> {
    try_cases(&rt, rt.alloc(), Table::Roll, "", READ)
}

fn name(rt: &impl Abort, text: &[u8]) -> Name {
    read_name(text).expect(rt, "a name")
}

#[test]
fn a_student_is_found_by_the_name(rt: HostRuntime) -> Result<(), Fail> {
    let text = b"student,budget,credits,courses\nann,900000,800,8\nbob,0,10,2\n";
    let roll = roll_in(&rt, rt.alloc(), text);
    assert_eq!(rt; roll.find(&name(&rt, b"bob")), Some(StudentNo(1)));
    assert_eq!(rt; roll.find(&name(&rt, b"zoe")), None);
    Ok(())
}

#[test]
fn a_roll_of_one_student(rt: HostRuntime) -> Result<(), Fail> {
    let roll = Roll::single(rt.alloc(), name(&rt, b"zoe"), 10, 3)?;
    let said = said_by_roll(rt.alloc(), &roll)?;
    assert_eq!(rt; said.as_str(), "version 1, zoe 0 10 3 0");
    Ok(())
}

#[test]
fn a_roll_has_at_most_2000_students(rt: HostRuntime) -> Result<(), Fail> {
    let full = long_table(rt.alloc(), HEADER, 2_000, ",1,2,3")?;
    let roll = roll_in(&rt, rt.alloc(), full.as_bytes());
    assert_eq!(rt; roll.len(), 2_000);
    let more = long_table(rt.alloc(), HEADER, 2_001, ",1,2,3")?;
    let refusal = told(&rt, rt.alloc(), Table::Roll, more.as_bytes())?;
    assert_eq!(rt; refusal.as_str(), "TooMany");
    Ok(())
}
