// Explanations of worked examples, and trees that are spoiled.
ghost use Rattle.std.specs.Prelude.{◌≡◌, ◌↔◌, ◌<◌, All, IsTrue, length, nat_lt};
ghost use Rattle.bundle_rules.specs.Bundles.{sections_of};
ghost use Rattle.bundle_rules.specs.Demand.{HasPrices, IsBest, price_in};
ghost use Rattle.bundle_rules.specs.Menus.{wishes_of};
ghost use Rattle.explain_desk.specs.Explanations.{IsProvedWith, offer_of_all};
ghost use Rattle.explain_desk.specs.Views.{proved_of};

use bundle_rules::{Bundle, Menu, Rated, best_plain, has_prices};
use course_catalog::{Catalog, read_catalog};
use explain_desk::{Proved, check_forced, explain, put_explained};
use market_units::{SectionNo, SectionSet, Tokens, read_name};
use std::alloc::Global;
use std::process::Abort;

const CATALOG: &[u8] =
    b"section,course,seats,credits,meetings\nA,AA,1,1,\nB,BB,1,1,\nC,CC,1,1,\nD,DD,1,1,\n";

// A section of a menu, which has a course of its own, its rating, and its credits.
type Place = (u16, u8, u16);

// A menu: its places, its adjustments, the clashes of its places, the most credits and the most
// courses; what the four sections cost; and the budget of the student, who is told this text of the
// section.
#[derive(Clone, Copy)]
struct Case {
    places: &'static [Place],
    pairs: &'static [(u8, u8, i16)],
    clashes: &'static [u64],
    caps: (u16, u8),
    prices: &'static [Tokens],
    budget: u32,
    student: &'static [u8],
    section: u16,
    text: &'static str,
}

// These places.
fn places_of<R: Abort>(rt: &R, alloc: Global, places: &[Place]) -> Vec<Rated> {
    let mut rated = Vec::new(alloc);
    for (section, rating, credits) in places {
        let place = Rated {
            section: SectionNo(*section),
            course: *section,
            rating: *rating,
            credits: *credits,
        };
        rated.push(place).expect(rt, "memory");
    }
    rated
}

// The menu of a case.
fn menu_of<R: Abort>(rt: &R, alloc: Global, case: &Case) -> Menu {
    let places = places_of(rt, alloc, case.places);
    let (credits, courses) = case.caps;
    assert!(rt; Menu::may_build(&places, case.pairs, case.clashes, credits, courses));
    Menu::build(alloc, &places, case.pairs, case.clashes, credits, courses).expect(rt, "memory")
}

// The catalogue of the four sections.
fn four_sections<R: Abort>(rt: &R, alloc: Global) -> Catalog
    ensures { length result.sections ≡ 4 }
{
    let catalog = read_catalog(alloc, CATALOG).expect(rt, "a catalogue");
    assert!(rt; catalog.len() == 4);
    catalog
}

// Whether each of these sections is among four.
fn are_of_four(places: &[Rated]) -> bool
    ensures { IsTrue result ↔ All (λ rated. rated.section.0 < 4) places.now }
{
    places.iter().all(|rated| rated.section.0 < 4)
}

// What is offered to a student: a menu of four sections, what they cost, and the budget.
#[derive(Clone, Copy)]
struct Offered<'a> {
    menu: &'a Menu,
    prices: &'a [Tokens],
    budget: Tokens,
    ghost priced: { HasPrices menu.now prices.now },
    ghost of_four: { All (λ rated. rated.section.0 < 4) menu.now.places },
}

// The best bundle where four sections are offered.
fn best_of_four(offered: &Offered) -> Bundle
    ensures { IsBest (wishes_of offered.now.menu.now) (price_in offered.now.prices.now)
        offered.now.budget.0 (λ s. nat_lt s 4) (sections_of result) }
{
    let Offered {
        menu,
        prices,
        budget,
    } = *offered;
    let all = SectionSet::full(4);
    best_plain(menu, prices, budget, &all)
}

// How the check of this text ends, in the place of the tree of what was proved.
fn checked(text: &[u8], offered: &Offered, section: SectionNo, proved: &Proved) -> Result<(), u32>
    requires { IsProvedWith (offer_of_all offered.now.menu.now offered.now.prices.now
        offered.now.budget.0 4) section.0 (proved_of proved.now) }
{
    let Offered {
        menu,
        prices,
        budget,
    } = *offered;
    check_forced(menu, prices, budget, 4, section, &proved.bundle, text)
}

// The tree is right, and with another byte in the place of a symbol, with one byte less, or with
// one more it fails there.
fn fails_where_spoiled<R: Abort>(
    rt: &R,
    alloc: Global,
    offered: &Offered,
    section: SectionNo,
    proved: &Proved,
)
    requires { IsProvedWith (offer_of_all offered.now.menu.now offered.now.prices.now
        offered.now.budget.0 4) section.0 (proved_of proved.now) }
{
    let whole = proved.tree.as_slice();
    assert!(rt; whole.len() < 100);
    assert!(rt; checked(whole, offered, section, proved).is_ok());
    for at in 0..whole.len() {
        let mut spoiled = whole.to_vec(alloc).expect(rt, "memory");
        spoiled[at] = b'?';
        let end = Err(at as u32);
        assert!(rt; checked(&spoiled, offered, section, proved) == end);
        assert!(rt; checked(&whole[..at], offered, section, proved) == end);
    }
    let mut longer = whole.to_vec(alloc).expect(rt, "memory");
    longer.push(b'*').expect(rt, "memory");
    let end = Err(whole.len() as u32);
    assert!(rt; checked(&longer, offered, section, proved) == end);
}

// The student of the case is told its text, and the tree is that of the best bundle with the
// section.
fn try_offered<R: Abort>(rt: &R, alloc: Global, case: &Case, offered: &Offered) {
    let catalog = four_sections(rt, alloc);
    let student = read_name(case.student).expect(rt, "a name");
    let section = SectionNo(case.section);
    let Offered {
        menu,
        prices,
        budget,
    } = *offered;
    assert!(rt; section.0 < 4);
    let bundle = best_of_four(offered);
    let explained = explain(alloc, menu, prices, budget, 4, &bundle, section).expect(rt, "memory");
    let told = put_explained(alloc, &catalog, student, section, menu, &bundle, &explained).expect(
        rt, "memory",
    );
    assert!(rt; told.as_slice() == case.text.as_bytes());
    if let Some(proved) = &explained.best {
        fails_where_spoiled(rt, alloc, offered, section, proved);
    }
}

fn try_case<R: Abort>(rt: &R, alloc: Global, case: &Case) {
    let menu = menu_of(rt, alloc, case);
    assert!(rt; has_prices(&menu, case.prices));
    assert!(rt; are_of_four(menu.places()));
    let offered = Offered {
        menu: &menu,
        prices: case.prices,
        budget: Tokens(case.budget),
    };
    try_offered(rt, alloc, case, &offered);
}

const FREE: &[Tokens] = &[Tokens(0), Tokens(0), Tokens(0), Tokens(0)];

// A student who rates the first two sections alike is asked for the second one.
const TWO: Case = Case {
    places: &[(0, 50, 1), (1, 50, 1)],
    pairs: &[],
    clashes: &[0, 0],
    caps: (10, 2),
    prices: FREE,
    budget: 0,
    student: b"ann",
    section: 1,
    text: "",
};

// One with three sections of several credits, of which at most four are allowed.
fn tight(section: u16, text: &'static str) -> Case {
    Case {
        places: &[(0, 50, 3), (1, 40, 2), (2, 99, 5)],
        clashes: &[0; 3],
        caps: (4, 2),
        section,
        text,
        ..TWO
    }
}

#[test]
fn limits_alone(rt: HostRuntime) {
    let price = Case {
        places: &[(0, 50, 1), (2, 40, 1)],
        pairs: &[(0, 1, 10)],
        prices: &[Tokens(104), Tokens(0), Tokens(0), Tokens(0)],
        budget: 103,
        student: b"bob",
        section: 0,
        text: "bob A alone price\n",
        ..TWO
    };
    try_case(&rt, rt.alloc(), &price);
    try_case(&rt, rt.alloc(), &tight(2, "ann C alone credits\n"));
    let courses = Case {
        places: &[(1, 9, 2)],
        clashes: &[0],
        caps: (4, 0),
        student: b"bob",
        text: "bob B alone courses\n",
        ..TWO
    };
    try_case(&rt, rt.alloc(), &courses);
}

#[test]
fn limits_beside_the_bundle(rt: HostRuntime) {
    let price = Case {
        places: &[(0, 60, 1), (1, 59, 1)],
        prices: &[Tokens(101), Tokens(101), Tokens(0), Tokens(0)],
        budget: 150,
        student: b"w",
        text: "w B beside price\nbest [B] 59\nlost 1\ntree +x!*\n",
        ..TWO
    };
    try_case(&rt, rt.alloc(), &price);
    let credits = tight(
        1,
        "ann B beside credits\nbest [B] 40\nlost 10\ntree +x!-*\n",
    );
    try_case(&rt, rt.alloc(), &credits);
    let courses = Case {
        caps: (10, 1),
        text: "ann B beside courses\nbest [B] 50\nlost 0\ntree +x!*\n",
        ..TWO
    };
    try_case(&rt, rt.alloc(), &courses);
}

// What is told of one of two sections, with these caps.
const OF_TWO: [((u16, u8), u16, &str); 2] = [
    ((10, 1), 0, "ann A held\n"),
    ((10, 0), 2, "ann C unrated\n"),
];

// The section that is not rated, and the one that clashes, pass the cap on courses too: the first
// reason that applies is told.
#[test]
fn other_reasons(rt: HostRuntime) {
    for (caps, section, text) in OF_TWO {
        let case = Case {
            caps,
            section,
            text,
            ..TWO
        };
        try_case(&rt, rt.alloc(), &case);
    }
    let clash = Case {
        places: &[(0, 20, 1), (3, 45, 1)],
        clashes: &[2, 1],
        caps: (10, 1),
        budget: 102,
        student: b"cat",
        section: 0,
        text: "cat A clash D\nbest [A] 20\nlost 25\ntree !-*\n",
        ..TWO
    };
    try_case(&rt, rt.alloc(), &clash);
    let less = Case {
        pairs: &[(0, 1, -200)],
        text: "ann B less\nbest [B] 50\nlost 0\ntree +!n!*\n",
        ..TWO
    };
    try_case(&rt, rt.alloc(), &less);
}
