// Crowds of few students, and what they take.
use bundle_rules::{Bundle, Menu, Rated};
use demand_api::Crowd;
use market_units::{SectionNo, Tokens};
use std::alloc::Global;
use std::process::Abort;

/// A section of one credit that a student rates, the number of its course, and the rating.
pub type Wish = (u16, u16, u8);

/// A student: its budget, the most sections that it may take, what it rates, its adjustments, and
/// with which of its places each place clashes.
pub type Student<'a> = (u32, u8, &'a [Wish], &'a [(u8, u8, i16)], &'a [u64]);

/// Four students who want the one section.
pub const FOUR_RIVALS: [Student<'static>; 4] = [
    (100, 1, ONE_WISH, &[], &[0]),
    (101, 1, ONE_WISH, &[], &[0]),
    (102, 1, ONE_WISH, &[], &[0]),
    (103, 1, ONE_WISH, &[], &[0]),
];

/// What one rates who wants the one section.
pub const ONE_WISH: &[Wish] = &[(0, 0, 50)];

/// The crowd of these students, where there are so many sections.
pub fn crowd_of<R: Abort>(rt: &R, alloc: Global, students: &[Student], sections: u16) -> Crowd {
    let mut menus = Vec::new(alloc);
    let mut budgets = Vec::new(alloc);
    for student in students {
        menus.push(menu_of(rt, alloc, student)).expect(rt, "memory");
        budgets.push(Tokens(student.0)).expect(rt, "memory");
    }
    Crowd::of(menus, budgets, sections).expect(rt, "a crowd")
}

/// The menu of this student; the test fails where there is none.
pub fn menu_of<R: Abort>(rt: &R, alloc: Global, student: &Student) -> Menu {
    let (_, courses, wishes, pairs, clashes) = *student;
    let mut places = Vec::new(alloc);
    for wish in wishes {
        places.push(place_of(*wish)).expect(rt, "memory");
    }
    assert!(rt; Menu::may_build(&places, pairs, clashes, 10, courses));
    Menu::build(alloc, &places, pairs, clashes, 10, courses).expect(rt, "memory")
}

fn place_of((section, course, rating): Wish) -> Rated {
    Rated {
        section: SectionNo(section),
        course,
        rating,
        credits: 1,
    }
}

/// Whether these are the bundles, by the ordinals of their sections.
pub fn are_bundles(bundles: &[Bundle], wanted: &[&[u16]]) -> bool {
    if bundles.len() != wanted.len() {
        return false;
    }
    for place in 0..bundles.len() {
        if !has_sections(&bundles[place], wanted[place]) {
            return false;
        }
    }
    true
}

fn has_sections(bundle: &Bundle, wanted: &[u16]) -> bool {
    let sections = bundle.sections();
    if sections.len() != wanted.len() {
        return false;
    }
    for place in 0..sections.len() {
        if sections[place].0 != wanted[place] {
            return false;
        }
    }
    true
}
