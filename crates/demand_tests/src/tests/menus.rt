// Menus of few places.
use bundle_rules::{Menu, Rated};
use market_units::SectionNo;
use std::alloc::Global;
use std::process::Abort;

/// A place of a menu: its section and course, its rating and its credits.
pub fn rated(section: u16, course: u16, rating: u8, credits: u16) -> Rated {
    Rated {
        section: SectionNo(section),
        course,
        rating,
        credits,
    }
}

/// The menu of these places, with adjustments, the clashes of each place, and the caps on credits
/// and courses; the test fails where there is none.
pub fn menu_of<R: Abort>(
    rt: &R,
    alloc: Global,
    places: &[Rated],
    pairs: &[(u8, u8, i16)],
    clashes: &[u64],
    caps: (u16, u8),
) -> Menu {
    assert!(rt; Menu::may_build(places, pairs, clashes, caps.0, caps.1));
    Menu::build(alloc, places, pairs, clashes, caps.0, caps.1).expect(rt, "memory")
}
