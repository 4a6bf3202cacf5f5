// Students who want one section each.
use crate::tests::menus::{menu_of, rated};
use demand_api::Crowd;
use market_units::Tokens;
use std::alloc::Global;
use std::process::Abort;

/// So many students, at most 1,000, who all want the one section, with budgets from 100 on.
pub fn rivals<R: Abort>(rt: &R, alloc: Global, count: u32) -> Crowd {
    students_of(rt, alloc, count, 1)
}

/// So many students, at most 1,000, with budgets from 100 on, each of whom wants one of so many
/// sections, in turn.
pub fn students_of<R: Abort>(rt: &R, alloc: Global, count: u32, sections: u16) -> Crowd {
    assert!(rt; count <= 1000 && 1 <= sections);
    let mut menus = Vec::new(alloc);
    let mut budgets = Vec::new(alloc);
    for more in 0..count {
        let wanted = more as u16 % sections;
        let menu = menu_of(rt, alloc, &[rated(wanted, 0, 50, 1)], &[], &[0], (10, 1));
        menus.push(menu).expect(rt, "memory");
        budgets.push(Tokens(100 + more)).expect(rt, "memory");
    }
    Crowd::of(menus, budgets, sections).expect(rt, "a crowd")
}
