// Tables of small menus, and which nodes they prune, worked by hand.
ghost use Rattle.std.specs.Prelude.{◌≤◌, length};
ghost use Rattle.bundle_bounds.specs.Views.{data_of};
ghost use Rattle.demand_oracle.specs.SummedNodes.{IsSummedOf};

use super::*;
use crate::closing::prunes;
use crate::goods::Goods;
use crate::names::Names;
use crate::question::Question;
use crate::tables::MOST_PLACES;
use bundle_rules::{Menu, Rated, has_prices};
use market_units::{SectionNo, SectionSet};
use std::alloc::Global;
use std::process::Abort;
use std::test::Fail;

// A menu of sections 0, 1, .. with these ratings and credits.
#[derive(Clone, Copy)]
struct Case<'a> {
    rated: &'a [(u8, u16)],
    pairs: &'a [(u8, u8, i16)],
    clashes: &'a [u64],
    caps: (u16, u8),
}

const PLAIN: Rated = Rated {
    section: SectionNo(0),
    course: 0,
    rating: 1,
    credits: 0,
};

fn menu_of<R: Abort>(rt: &R, alloc: Global, case: &Case) -> Menu {
    let mut places = [PLAIN; 4];
    for (i, (rating, credits)) in case.rated.iter().enumerate() {
        assert!(rt; i < 4);
        places[i] = Rated {
            section: SectionNo(i as u16),
            course: i as u16,
            rating: *rating,
            credits: *credits,
        };
    }
    assert!(rt; case.rated.len() <= 4);
    let places = &places[..case.rated.len()];
    assert!(rt; Menu::may_build(places, case.pairs, case.clashes, case.caps.0, case.caps.1));
    Menu::build(
        alloc,
        places,
        case.pairs,
        case.clashes,
        case.caps.0,
        case.caps.1,
    )
    .expect(rt, "memory")
}

const ORDER: [u8; 3] = [0, 1, 2];

// Whether a node is pruned where the places below the step's are decided, and each section is called
// by its place.
fn is_pruned(reach: &Reach, step: &Step, champion: &SummedNode) -> bool
    requires { IsSummedOf (data_of step.now.offer.now) champion.now }
{
    let offer = step.offer;
    prove!(offer.menu.len() <= MOST_PLACES);
    let column = reach.column(offer.menu, offer.budget, step.summed);
    let goods = Goods::of(offer);
    let mut before = [0; PLACES];
    before[1] = 1;
    before[2] = 3;
    let names = Names {
        order: &ORDER,
        before,
    };
    let question = Question {
        offer,
        given: None,
        reach,
        goods: &goods,
        names: &names,
    };
    let left = goods.alone >> step.place << step.place;
    prunes(&question, &column, step.summed, step.place, left, champion)
}

// Which nodes of a menu without clashes and adjustments are pruned for a champion: that at the
// first place, that at the second with the first section, and that at the second without it.
#[derive(Clone, Copy)]
struct Pruned<'a> {
    rated: &'a [(u8, u16)],
    caps: (u16, u8),
    prices: &'a [Tokens],
    budget: Tokens,
    champion: &'a [SectionNo],
    nodes: [bool; 3],
}

const FREE: [Tokens; 3] = [Tokens(0); 3];

const PRUNED: [Pruned<'static>; 5] = [
    // Of two equal ones one may be taken: without the first there is nothing better than it, and
    // without the second there is.
    Pruned {
        rated: &[(50, 1), (50, 1)],
        caps: (10, 1),
        prices: &FREE,
        budget: Tokens(0),
        champion: &[SectionNo(0)],
        nodes: [false, false, true],
    },
    Pruned {
        rated: &[(50, 1), (50, 1)],
        caps: (10, 1),
        prices: &FREE,
        budget: Tokens(0),
        champion: &[SectionNo(1)],
        nodes: [false, false, false],
    },
    // The budget of 30 leaves no more than 90 without the first, which costs 10; without it both
    // others cost 40.
    Pruned {
        rated: &[(50, 1), (60, 1), (60, 1)],
        caps: (10, 3),
        prices: &[Tokens(10), Tokens(20), Tokens(20)],
        budget: Tokens(30),
        champion: &[SectionNo(0), SectionNo(1)],
        nodes: [false, false, true],
    },
    // The same with 3 credits.
    Pruned {
        rated: &[(50, 1), (60, 2), (60, 2)],
        caps: (3, 3),
        prices: &FREE,
        budget: Tokens(0),
        champion: &[SectionNo(0), SectionNo(1)],
        nodes: [false, false, true],
    },
    // Of sections of 3 credits one fits 5 credits, so that the first one alone is too little.
    Pruned {
        rated: &[(50, 3), (60, 3), (55, 3)],
        caps: (5, 2),
        prices: &FREE,
        budget: Tokens(0),
        champion: &[SectionNo(1)],
        nodes: [false, true, false],
    },
];

fn prunings<R: Abort>(rt: &R, alloc: Global, case: &Pruned) -> [bool; 3] {
    let clashes = [0; 3];
    assert!(rt; case.rated.len() <= 3);
    let menu = menu_of(
        rt,
        alloc,
        &Case {
            rated: case.rated,
            pairs: &[],
            clashes: &clashes[..case.rated.len()],
            caps: case.caps,
        },
    );
    assert!(rt; has_prices(&menu, case.prices));
    assert!(rt; menu.len() >= 2);
    let all = SectionSet::full(3);
    let offer = Offer {
        menu: menu.rows(),
        prices: case.prices,
        budget: case.budget,
        allowed: &all,
    };
    let bundle = Bundle::of(case.champion).expect(rt, "a bundle");
    let champion = begun_with(&offer, places_in(menu.rows(), &bundle));
    assert_eq!(rt; champion.node.chosen.sections(), case.champion);
    nodes_pruned(rt, &offer, &champion)
}

// The three nodes of a menu with two places at least.
fn nodes_pruned<R: Abort>(rt: &R, offer: &Offer, champion: &SummedNode) -> [bool; 3]
    requires two { 2 ≤ length offer.now.menu.now.places }
    requires champion { IsSummedOf (data_of offer.now) champion.now }
{
    let mut reach = Reach::empty();
    reach.measure(offer);
    let root = SummedNode::root();
    let first = Bundle::empty().with(SectionNo(0));
    let with_first = begun_with(offer, places_in(offer.menu, &first));
    assert_eq!(rt; with_first.node.chosen.sections().len(), 1);
    assert!(rt; with_first.node.place <= 1);
    let begin = Step {
        offer,
        summed: &root,
        place: 0,
    };
    let taken = Step {
        offer,
        summed: &with_first,
        place: 1,
    };
    let passed = Step {
        offer,
        summed: &root,
        place: 1,
    };
    [
        is_pruned(&reach, &begin, champion),
        is_pruned(&reach, &taken, champion),
        is_pruned(&reach, &passed, champion),
    ]
}

#[test]
fn the_numbers_of_a_table(rt: HostRuntime) -> Result<(), Fail> {
    // The first two clash. The last two have an adjustment of 15, the first and the last one of -5.
    // Two may be taken.
    let menu = menu_of(
        &rt,
        rt.alloc(),
        &Case {
            rated: &[(60, 1), (40, 1), (30, 1), (20, 1)],
            pairs: &[(2, 3, 15), (0, 3, -5)],
            clashes: &[2, 1, 0, 0],
            caps: (10, 2),
        },
    );
    let prices = [Tokens(0); 4];
    assert!(rt; has_prices(&menu, &prices));
    let all = SectionSet::full(4);
    let offer = Offer {
        menu: menu.rows(),
        prices: &prices,
        budget: Tokens(0),
        allowed: &all,
    };
    let mut reach = Reach::empty();
    reach.measure(&offer);
    let (hopes, most) = (reach.hopes, reach.most);
    assert_eq!(rt; hopes[3][2], 15);
    assert_eq!(rt; hopes[3][0], 0);
    // In thousandths of a point, of which each place has one more.
    assert_eq!(rt; most[3 * COUNTS + 1][0], 20_001);
    assert_eq!(rt; most[2 * COUNTS + 1][0], 45_001);
    assert_eq!(rt; most[2 * COUNTS + 2][0], 65_002);
    assert_eq!(rt; most[1 * COUNTS + 2][0], 85_002);
    assert_eq!(rt; most[0 * COUNTS + 1][0], 60_001);
    assert_eq!(rt; most[0 * COUNTS + 2][0], 105_002);
    let champion = begun_with(&offer, reach.drafted(&offer));
    let first_and_third = [SectionNo(0), SectionNo(2)];
    assert_eq!(rt; champion.node.chosen.sections(), first_and_third.as_slice());
    assert_eq!(rt; champion.utility(), 90);

    // Without the third section nothing adds to the last.
    let without = all.without(SectionNo(2));
    let offer = Offer {
        menu: menu.rows(),
        prices: &prices,
        budget: Tokens(0),
        allowed: &without,
    };
    reach.measure(&offer);
    let most = reach.most;
    assert_eq!(rt; most[2 * COUNTS + 1][0], 20_001);
    assert_eq!(rt; most[0 * COUNTS + 2][0], 80_002);
    Ok(())
}

#[test]
fn what_so_many_units_are_enough_for(rt: HostRuntime) -> Result<(), Fail> {
    // A budget of 30 is counted in single tokens. The first two places cost 10 and 20. For one and
    // two sections any number of units is asked, for three, which is the course cap, all 30 alone.
    let menu = menu_of(
        &rt,
        rt.alloc(),
        &Case {
            rated: &[(50, 1), (60, 1)],
            pairs: &[],
            clashes: &[0, 0],
            caps: (10, 3),
        },
    );
    let prices = [Tokens(10), Tokens(20)];
    assert!(rt; has_prices(&menu, &prices));
    let all = SectionSet::full(2);
    let offer = Offer {
        menu: menu.rows(),
        prices: &prices,
        budget: Tokens(30),
        allowed: &all,
    };
    let mut reach = Reach::empty();
    reach.measure(&offer);
    let most = reach.most;
    assert_eq!(rt; most[2][9], 0);
    assert_eq!(rt; most[2][10], 50_001);
    assert_eq!(rt; most[2][29], 60_001);
    assert_eq!(rt; most[2][30], 110_002);
    assert_eq!(rt; most[3][30], 110_002);
    assert_eq!(rt; most[1][30], 60_001);
    Ok(())
}

#[test]
fn the_nodes_that_are_pruned(rt: HostRuntime) -> Result<(), Fail> {
    for case in &PRUNED {
        assert_eq!(rt; prunings(&rt, rt.alloc(), case), case.nodes);
    }
    Ok(())
}
