// Four students, of whom two want one section and two another.
use crate::tests::rivals::students_of;
use crate::tests::workers::{CountingGate, all_have_prices};
use demand_api::Demands;
use demand_workers::{Pool, PooledDemands};
use market_edge::OpenGate;
use market_units::{SectionNo, StudentNo, Tokens};
use std::sync::Arc;
use std::test::Fail;

// Both sections become cheaper than they were, and each of the four takes what it wants then.
#[test]
fn each_cheaper_section_is_noticed(rt: HostRuntime) -> Result<(), Fail> {
    let alloc = rt.alloc();
    let crowd = Arc::new(alloc, students_of(&rt, alloc, 4, 2))?;
    let dear = [vec![in alloc; Tokens(104); 2]?];
    let free = [vec![in alloc; Tokens(0); 2]?];
    assert!(rt; all_have_prices(&crowd, &dear));
    assert!(rt; all_have_prices(&crowd, &free));
    let mut demands = PooledDemands::make(Pool::reserve(alloc, 2)?, crowd, &OpenGate);
    let found = demands.counts(&rt, alloc, &dear)?;
    assert_eq!(rt; found.len(), 1);
    assert_eq!(rt; found[0].as_slice(), [0, 0].as_slice());
    let found = demands.counts(&rt, alloc, &free)?;
    assert_eq!(rt; found.len(), 1);
    assert_eq!(rt; found[0].as_slice(), [2, 2].as_slice());
    Ok(())
}

// The least prices at which at most one takes the section: of budgets 100 and 102 want the first,
// and of budgets 101 and 103 the second.
#[test]
fn the_least_price_of_each_section(rt: HostRuntime) -> Result<(), Fail> {
    let alloc = rt.alloc();
    let crowd = Arc::new(alloc, students_of(&rt, alloc, 4, 2))?;
    let prices = [Tokens(0), Tokens(50)];
    assert!(rt; crowd.has_prices(&prices));
    assert_eq!(rt; crowd.sections, 2);
    let mut demands = PooledDemands::make(Pool::reserve(alloc, 2)?, crowd, &OpenGate);
    let pairs = [(SectionNo(0), 1), (SectionNo(1), 1)];
    let found = demands.least_prices(&rt, alloc, &prices, &pairs)?;
    let wanted = [101, 102].map(Tokens);
    assert_eq!(rt; found.as_slice(), wanted.as_slice());
    Ok(())
}

// The four are asked at the prices of the call, and then the one of budget 100 where the first
// section costs 101. It leaves, and what was found of it there is used again.
#[test]
fn who_leaves_is_asked_at_the_raised_price(rt: HostRuntime) -> Result<(), Fail> {
    let alloc = rt.alloc();
    let crowd = Arc::new(alloc, students_of(&rt, alloc, 4, 2))?;
    let prices = [Tokens(0), Tokens(50)];
    let raised = [Tokens(101), Tokens(50)];
    assert!(rt; crowd.has_prices(&prices));
    assert!(rt; crowd.has_prices(&raised));
    assert_eq!(rt; crowd.sections, 2);
    let gate = CountingGate::new();
    let mut demands = PooledDemands::make(Pool::reserve(alloc, 1)?, crowd, &gate);
    assert_eq!(rt; demands.students(), 4);
    let found = demands.least_prices(&rt, alloc, &prices, &[(SectionNo(0), 1)])?;
    assert_eq!(rt; found.as_slice(), [Tokens(101)].as_slice());
    assert_eq!(rt; gate.take().1, 5);
    let found = demands.bundles(&rt, alloc, &raised, &[StudentNo(0)])?;
    assert_eq!(rt; found.len(), 1);
    assert!(rt; !found[0].has(SectionNo(0)));
    assert_eq!(rt; gate.take().1, 0);
    Ok(())
}
