// Drawn budgets, and the order in which students choose again.
use crate::tests::readers::roll_in;
use budget_draw::{after_order, draw, raised};
use market_units::{Tokens, read_name};
use std::alloc::Global;
use std::process::Abort;
use std::test::Fail;
use student_roll::Roll;

const FOUR: &[u8] =
    b"student,budget,credits,courses\nann,100,10,2\nbob,200,10,2\ncat,300,10,2\ndan,400,10,2\n";

const CARRIED: &[u8] = b"student,budget,credits,courses,carry\nu,100,10,1,0\nv,100,10,1,5\n";

// The budgets that this seed draws with this spread are these.
fn assert_drawn(
    rt: &impl Abort,
    alloc: Global,
    roll: &Roll,
    (seed, spread): (u64, u8),
    wanted: &str,
) -> Result<(), Fail> {
    assert!(rt; spread <= 49);
    let drawn = draw(alloc, roll, seed, spread)?;
    let told = format!(in alloc; "{:?}", drawn.as_slice())?;
    assert_eq!(rt; told.as_str(), wanted);
    Ok(())
}

// The order of students with these budgets is this one.
fn assert_order(
    rt: &impl Abort,
    alloc: Global,
    budgets: &[Tokens],
    wanted: &str,
) -> Result<(), Fail> {
    assert!(rt; budgets.len() <= 2_000);
    let order = after_order(alloc, budgets)?;
    let told = format!(in alloc; "{:?}", order.as_slice())?;
    assert_eq!(rt; told.as_str(), wanted);
    Ok(())
}

#[test]
fn seed_0_ranks_four_students_2_1_0_3(rt: HostRuntime) -> Result<(), Fail> {
    let alloc = rt.alloc();
    let four = roll_in(&rt, alloc, FOUR);
    let ranked = "[Tokens(120), Tokens(210), Tokens(300), Tokens(430)]";
    assert_drawn(&rt, alloc, &four, (0, 10), ranked)?;
    let flat = "[Tokens(100), Tokens(200), Tokens(300), Tokens(400)]";
    assert_drawn(&rt, alloc, &four, (0, 0), flat)?;
    let name = read_name(b"eve").ok_or("a name")?;
    let alone = Roll::single(alloc, name, 1, 1)?;
    assert_drawn(&rt, alloc, &alone, (7, 49), "[Tokens(0)]")
}

#[test]
fn what_is_carried_over_is_in_the_budget(rt: HostRuntime) -> Result<(), Fail> {
    let alloc = rt.alloc();
    let roll = roll_in(&rt, alloc, CARRIED);
    assert_drawn(&rt, alloc, &roll, (0, 0), "[Tokens(100), Tokens(105)]")?;
    let budgets = [Tokens(100), Tokens(105)];
    assert_order(&rt, alloc, &budgets, "[StudentNo(1), StudentNo(0)]")
}

// A budget, by how many percent it is raised, and what it is then.
const RAISED: [(u32, u8, u32); 2] = [(109, 10, 119), (1_000_000, 50, 1_500_000)];

#[test]
fn the_aftermarket_goes_from_the_greatest_budget_on(rt: HostRuntime) -> Result<(), Fail> {
    let alloc = rt.alloc();
    let budgets = [103, 100, 104, 103, 100].map(Tokens);
    let order = "[StudentNo(2), StudentNo(0), StudentNo(3), StudentNo(1), StudentNo(4)]";
    assert_order(&rt, alloc, &budgets, order)?;
    assert_order(&rt, alloc, &[], "[]")?;
    for (budget, raise, wanted) in RAISED {
        assert!(rt; budget <= 1_000_000 && raise <= 50);
        assert_eq!(rt; raised(Tokens(budget), raise), Tokens(wanted));
    }
    Ok(())
}
