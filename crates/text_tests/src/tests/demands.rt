// What students take at given prices, and the line of an order.
use bundle_rules::{Menu, Rated};
use demand_api::{Crowd, PlainDemands};
use demand_text::{Taken, put_order};
use market_units::{SectionNo, Tokens};
use preference_desk::{Entry, Reply};
use std::alloc::Global;
use std::process::Abort;
use std::sync::Arc;
use std::test::Fail;
use utility_language::Command;

fn entry(session: u16) -> Entry {
    Entry {
        session,
        command: Command::Close,
        reply: Reply::Done,
    }
}

#[test]
fn orders(rt: HostRuntime) -> Result<(), Fail> {
    let mut text = b"before\n".to_vec(rt.alloc())?;
    put_order(&mut text, &[entry(1), entry(64), entry(2), entry(1)]).expect(&rt, "memory");
    put_order(&mut text, &[]).expect(&rt, "memory");
    assert_eq!(rt;
        text.as_slice(),
        b"before\norder 1 64 2 1\norder\n".as_slice()
    );
    Ok(())
}

// Four students of budgets 100 to 103 who want one section.
fn four_students<R: Abort>(rt: &R, alloc: Global) -> Crowd {
    let mut menus = Vec::new(alloc);
    let mut budgets = Vec::new(alloc);
    for budget in 100..104 {
        let places = [Rated {
            section: SectionNo(0),
            course: 0,
            rating: 50,
            credits: 1,
        }];
        assert!(rt; Menu::may_build(&places, &[], &[0], 10, 1));
        let menu = Menu::build(alloc, &places, &[], &[0], 10, 1).expect(rt, "memory");
        menus.push(menu).expect(rt, "memory");
        budgets.push(Tokens(budget)).expect(rt, "memory");
    }
    Crowd::of(menus, budgets, 1).expect(rt, "a crowd")
}

// The price of the section, how many take it, and the error with one seat. A price above the top
// acts as the top.
const TAKEN: [(u32, u32, u64); 4] = [(0, 4, 9), (102, 2, 1), (103, 1, 0), (1_000_001, 0, 1)];

#[test]
fn what_four_students_take(rt: HostRuntime) -> Result<(), Fail> {
    let alloc = rt.alloc();
    for (price, count, error) in TAKEN {
        let crowd = four_students(&rt, alloc);
        assert_eq!(rt; crowd.sections, 1);
        let crowd = Arc::new(alloc, crowd).expect(&rt, "memory");
        let mut demands = PlainDemands::make(crowd);
        let taken = Taken::at(&rt, alloc, &mut demands, &[1], &[Tokens(price)]);
        let taken = taken.expect(&rt, "memory");
        assert_eq!(rt; taken.counts(), [count].as_slice());
        assert_eq!(rt; taken.error(), error);
    }
    Ok(())
}
