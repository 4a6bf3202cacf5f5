// A student who leaves its other section for one that costs a token less, each time a price rises.
use crate::tests::menus::{menu_of, rated};
use crate::tests::workers::CountingGate;
use demand_api::{Crowd, Demands};
use demand_workers::{Pool, PooledDemands};
use market_units::{SectionNo, Tokens};
use std::alloc::Global;
use std::process::Abort;
use std::sync::Arc;
use std::test::Fail;

// It has 20 tokens, and takes at most two sections: the first, which it likes most, and of twenty
// others that one which it likes most and can pay for besides.
fn clinging<R: Abort>(rt: &R, alloc: Global) -> Crowd {
    let mut places = Vec::new(alloc);
    places.push(rated(0, 0, 100, 1)).expect(rt, "memory");
    for other in 1..=20 {
        let place = rated(u16::from(other), u16::from(other), other, 1);
        places.push(place).expect(rt, "memory");
    }
    let menu = menu_of(rt, alloc, &places, &[], &[0; 21], (2, 2));
    let mut menus = Vec::new(alloc);
    menus.push(menu).expect(rt, "memory");
    let budgets = vec![in alloc; Tokens(20); 1].expect(rt, "memory");
    Crowd::of(menus, budgets, 21).expect(rt, "a crowd")
}

// The others cost 1 to 20 tokens, as much as they are liked. So the student can be asked at each
// price of the first section from 1 to 20, and keeps it. The top, 21, has five binary digits: the
// call asks at most eleven times.
#[test]
fn who_moves_on_by_one_token_is_not_asked_at_each(rt: HostRuntime) -> Result<(), Fail> {
    let alloc = rt.alloc();
    let crowd = Arc::new(alloc, clinging(&rt, alloc))?;
    let mut prices = Vec::new(alloc);
    for price in 0..=20 {
        prices.push(Tokens(price))?;
    }
    assert!(rt; crowd.has_prices(&prices));
    assert_eq!(rt; crowd.sections, 21);
    let gate = CountingGate::new();
    let mut demands = PooledDemands::make(Pool::reserve(alloc, 2)?, crowd, &gate);
    let found = demands.least_prices(&rt, alloc, &prices, &[(SectionNo(0), 0)])?;
    assert_eq!(rt; found.len(), 1);
    assert_eq!(rt; found[0], Tokens(21));
    let (_, calls) = gate.take();
    assert!(rt; calls <= 11);
    Ok(())
}
