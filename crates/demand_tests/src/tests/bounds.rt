// Bounds of two small menus, worked by hand.
use crate::tests::menus::{menu_of, rated};
use bundle_bounds::{Leaf, Node, bound, bound_closes};
use bundle_rules::{Bundle, Menu, feasible, has_prices};
use market_units::{SectionNo, SectionSet, Tokens};
use std::process::Abort;
use std::test::Fail;

// The first bound that prunes a node with nothing chosen for this champion, with its number.
fn pruning<R: Abort>(
    rt: &R,
    menu: &Menu,
    prices: &[Tokens],
    budget: u32,
    place: u8,
    champion: &[SectionNo],
) -> Option<(Leaf, i64)> {
    let champion = Bundle::of(champion).expect(rt, "ascending");
    assert!(rt; has_prices(menu, prices));
    assert!(rt; feasible(menu, &champion));
    let node = Node {
        place,
        chosen: Bundle::empty(),
    };
    let allowed = SectionSet::full(400);
    let leaf = bound_closes(menu, prices, Tokens(budget), &allowed, &node, &champion)?;
    Some((
        leaf,
        bound(menu, prices, Tokens(budget), &allowed, &node, leaf),
    ))
}

#[test]
fn two_places_with_a_pair(rt: HostRuntime) -> Result<(), Fail> {
    let places = [rated(0, 0, 60, 1), rated(1, 1, 40, 1)];
    let menu = menu_of(&rt, rt.alloc(), &places, &[(0, 1, 10)], &[0, 0], (10, 2));
    let prices = [Tokens(50), Tokens(30)];
    let (first, second) = (SectionNo(0), SectionNo(1));
    assert_eq!(rt; pruning(&rt, &menu, &prices, 60, 0, &[first]), None);
    assert_eq!(rt;
        pruning(&rt, &menu, &prices, 60, 0, &[first, second]),
        Some((Leaf::Budget(0), 84_000))
    );
    assert_eq!(rt;
        pruning(&rt, &menu, &prices, 60, 1, &[first]),
        Some((Leaf::Plain, 40_000))
    );
    assert_eq!(rt; pruning(&rt, &menu, &prices, 60, 1, &[second]), None);
    Ok(())
}

#[test]
fn two_places_of_one_course(rt: HostRuntime) -> Result<(), Fail> {
    let places = [rated(3, 7, 30, 1), rated(5, 7, 20, 1), rated(9, 2, 10, 1)];
    let menu = menu_of(&rt, rt.alloc(), &places, &[], &[2, 1, 0], (10, 8));
    let prices = [Tokens(10); 10];
    let champion = [SectionNo(3), SectionNo(9)];
    assert_eq!(rt;
        pruning(&rt, &menu, &prices, 15, 0, &champion),
        Some((Leaf::Budget(2), 35_000))
    );
    assert_eq!(rt;
        pruning(&rt, &menu, &prices, 15, 1, &champion),
        Some((Leaf::Plain, 30_000))
    );
    Ok(())
}
