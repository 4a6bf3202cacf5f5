// The best bundle of a menu of three sections.
use bundle_rules::{Bundle, Menu, Rated, best_plain, has_prices, utility};
use market_units::{SectionNo, SectionSet, Tokens};
use std::alloc::Global;
use std::process::Abort;

// Three sections with ratings and credits, the adjustment of two of them, which two clash, how many
// may be taken from the first on, and what is best.
#[derive(Clone, Copy)]
struct Case {
    rated: [(u8, u16); 3],
    pair: (u8, u8, i16),
    clashes: [u64; 3],
    caps: (u16, u8),
    prices: [Tokens; 3],
    budget: u32,
    allowed: u16,
    best: [bool; 3],
    utility: i32,
}

// A and B have equal ratings and C has more credits than the cap: A and B.
const PLAIN: Case = Case {
    rated: [(50, 1), (50, 1), (50, 100)],
    pair: (0, 1, 0),
    clashes: [0; 3],
    caps: (10, 8),
    prices: [Tokens(0); 3],
    budget: 0,
    allowed: 3,
    best: [true, true, false],
    utility: 100,
};

const CASES: [Case; 9] = [
    PLAIN,
    // Of two sections of equal rating, of which one may be taken, the lower ordinal.
    Case {
        caps: (10, 1),
        best: [true, false, false],
        utility: 50,
        ..PLAIN
    },
    // Of two sections and one of the same utility, those with the lowest ordinal.
    Case {
        rated: [(60, 1), (40, 1), (100, 2)],
        caps: (2, 8),
        ..PLAIN
    },
    // An adjustment that keeps two sections apart.
    Case {
        rated: [(80, 1), (50, 1), (1, 100)],
        pair: (0, 1, -200),
        best: [true, false, false],
        utility: 80,
        ..PLAIN
    },
    // An adjustment that joins two sections, counted once.
    Case {
        rated: [(90, 1), (1, 1), (1, 1)],
        pair: (1, 2, 200),
        caps: (10, 2),
        best: [false, true, true],
        utility: 202,
        ..PLAIN
    },
    // One section, and both at the same utility: both, since they differ in the higher ordinal
    // alone.
    Case {
        rated: [(10, 1), (10, 1), (1, 100)],
        pair: (0, 1, -10),
        utility: 10,
        ..PLAIN
    },
    // The first and the last clash, and neither with the one between.
    Case {
        rated: [(10, 1), (10, 1), (11, 1)],
        clashes: [4, 0, 1],
        best: [false, true, true],
        utility: 21,
        ..PLAIN
    },
    // Prices that sum to the budget are afforded, and what is not allowed is not taken.
    Case {
        rated: [(10, 1), (20, 1), (30, 1)],
        prices: [Tokens(3), Tokens(2), Tokens(0)],
        budget: 5,
        allowed: 2,
        utility: 30,
        ..PLAIN
    },
    // Nothing is afforded but what takes credits, and there are none.
    Case {
        rated: [(10, 0), (20, 0), (30, 1)],
        caps: (0, 8),
        prices: [Tokens(1), Tokens(1), Tokens(0)],
        best: [false; 3],
        utility: 0,
        ..PLAIN
    },
];

fn rated(section: u16, (rating, credits): (u8, u16)) -> Rated {
    Rated {
        section: SectionNo(section),
        course: section,
        rating,
        credits,
    }
}

fn try_case<R: Abort>(rt: &R, alloc: Global, case: &Case) {
    let places = [
        rated(0, case.rated[0]),
        rated(1, case.rated[1]),
        rated(2, case.rated[2]),
    ];
    let pairs = [case.pair];
    let (credits, courses) = case.caps;
    assert!(rt; Menu::may_build(&places, &pairs, &case.clashes, credits, courses));
    let built = Menu::build(alloc, &places, &pairs, &case.clashes, credits, courses).expect(
        rt, "memory",
    );
    let menu = built.copy(alloc).expect(rt, "memory");
    assert!(rt; has_prices(&menu, &case.prices));
    assert!(rt; case.allowed <= 3);
    let allowed = SectionSet::full(case.allowed);
    let best = best_plain(&menu, &case.prices, Tokens(case.budget), &allowed);
    for section in 0..3 {
        assert_eq!(rt;
            best.has(SectionNo(section)),
            case.best[usize::from(section)]
        );
    }
    assert_eq!(rt; utility(&menu, &best), case.utility);
    assert!(rt; Bundle::of(best.sections()) == Some(best));
}

#[test]
fn the_best_bundle(rt: HostRuntime) {
    for case in CASES.iter() {
        try_case(&rt, rt.alloc(), case);
    }
}
