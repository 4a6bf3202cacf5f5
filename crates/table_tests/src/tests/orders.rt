// The order in which a search tries the places of a menu.
use bundle_rules::{Bundle, Menu, Rated};
use market_units::SectionNo;
use std::alloc::Global;
use std::process::Abort;

fn rated(section: u16, rating: u8) -> Rated {
    Rated {
        section: SectionNo(section),
        course: section,
        rating,
        credits: 1,
    }
}

// Sections 3 and 8 have a positive adjustment, 5 and 9 a negative one, and 12 has none.
fn menu_of_five<R: Abort>(rt: &R, alloc: Global) -> Menu {
    let places = [
        rated(3, 10),
        rated(5, 40),
        rated(8, 30),
        rated(9, 40),
        rated(12, 50),
    ];
    let pairs = [(0, 2, 5), (1, 3, -5)];
    assert!(rt; Menu::may_build(&places, &pairs, &[0; 5], 10, 4));
    Menu::build(alloc, &places, &pairs, &[0; 5], 10, 4).expect(rt, "memory")
}

#[test]
fn places_in_the_order_of_a_search(rt: HostRuntime) {
    let menu = menu_of_five(&rt, rt.alloc());
    let ranked = menu.ranked();
    assert!(rt; ranked.order == [2u8, 0, 4, 1, 3].as_slice());
    assert_eq!(rt; ranked.position(SectionNo(9)), 4);
    // No section of the menu.
    assert_eq!(rt; ranked.position(SectionNo(4)), 5);
}

#[test]
fn sections_named_by_their_positions(rt: HostRuntime) {
    let menu = menu_of_five(&rt, rt.alloc());
    let ranked = menu.ranked();
    let positions = Bundle::of(&[SectionNo(0), SectionNo(1), SectionNo(3)]).expect(
        &rt,
        "ascending",
    );
    assert!(rt; ranked.rows.feasible(&positions));
    let sections = Bundle::of(&[SectionNo(3), SectionNo(5), SectionNo(8)]);
    assert!(rt; Some(ranked.named(&positions)) == sections);
    // 10, 40, 30, and 5 for the pair.
    assert_eq!(rt; ranked.rows.utility(&positions), 85);
}
