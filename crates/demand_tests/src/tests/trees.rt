// Trees of worked examples, and texts that are none.
ghost use Rattle.std.specs.Prelude.{ℕ, ◌≡◌, ◌<◌, ◌+◌, ◌++◌, ◌∷◌, [], List, length, true};
ghost use Rattle.std.specs.FinSet as set;
ghost use Rattle.std.specs.Ordering.{nat_cmp};
ghost use Rattle.market_units.specs.declared.units.Tokens.{Tokens};
ghost use Rattle.bundle_rules.specs.{Bundles.sections_of, Demand.HasPrices};
ghost use Rattle.bundle_rules.specs.Menus.{section_at, IsMenu};
ghost use Rattle.bundle_bounds.specs.Laws.{IsNode, IsTakable};
ghost use Rattle.bundle_bounds.specs.{Offers.offer_of, Offers.places_of, Opens.is_open};

use crate::tests::menus::{menu_of, rated};
use bundle_bounds::{Node, is_open};
use bundle_rules::{Bundle, Menu, has_prices};
use market_units::{SectionNo, SectionSet, Tokens};
use proof_tree::{TreeDefect, build, build_forced, build_into, check_forced, check_tree};
use std::alloc::Global;
use std::process::Abort;
use std::test::Fail;

// The menu of two places of one credit, each with its section and course and its rating, of which
// so many may be taken.
fn menu_of_two<R: Abort>(
    rt: &R,
    alloc: Global,
    [first, second]: [(u16, u8); 2],
    pairs: &[(u8, u8, i16)],
    clashes: [u64; 2],
    courses: u8,
) -> Menu {
    let places = [
        rated(first.0, first.0, first.1, 1),
        rated(second.0, second.0, second.1, 1),
    ];
    menu_of(rt, alloc, &places, pairs, &clashes, (10, courses))
}

// The node with the section of the next place, where that is open.
fn with_next(menu: &Menu, node: &Node) -> Node
    requires left { node.now.place < length menu.now.places }
    requires open { (prices : List Tokens) × (budget : ℕ) × (allowed : set.FinSet nat_cmp)
        × IsNode (offer_of menu.now prices budget allowed) node.now.place
        (sections_of node.now.chosen)
        × (is_open (offer_of menu.now prices budget allowed)
        (places_of menu.now (sections_of node.now.chosen)) node.now.place
        ≡ true) }
    ensures menu { IsMenu menu.now }
    ensures place { result.place ≡ node.now.place + 1 }
    ensures chosen { sections_of result.chosen
        ≡ sections_of node.now.chosen ++ section_at menu.now.places node.now.place ∷ [] }
{
    prove!(node.place < menu.len());
    let rated = menu.rated(node.place);
    Node {
        place: node.place + 1,
        chosen: node.chosen.with(rated.section),
    }
}

// The bundle of these sections, of which each is open beside those before it.
fn taken<R: Abort>(
    rt: &R,
    menu: &Menu,
    prices: &[Tokens],
    budget: Tokens,
    allowed: &SectionSet,
    sections: &[u16],
) -> Bundle
    requires { HasPrices menu.now prices.now }
    ensures { IsTakable (offer_of menu.now prices.now budget.0 allowed.now) (sections_of result) }
{
    let mut node = Node {
        place: 0,
        chosen: Bundle::empty(),
    };
    'sections: for section in sections {
        let place = menu.place(SectionNo(*section));
        assert!(rt; node.place <= place);
        assert!(rt; place < menu.len());
        let at = Node {
            place,
            chosen: node.chosen,
        };
        assert!(rt; is_open(menu, prices, budget, allowed, &at, place));
        node = with_next(menu, &at);
    }
    node.chosen
}

// The tree of the bundle of these sections is this text: checked, built, and written into a room of
// its length.
fn has_tree<R: Abort>(
    rt: &R,
    alloc: Global,
    menu: &Menu,
    prices: &[Tokens],
    budget: u32,
    sections: &[u16],
    text: &[u8],
) {
    assert!(rt; has_prices(menu, prices));
    let allowed = SectionSet::full(400);
    let budget = Tokens(budget);
    let best = taken(rt, menu, prices, budget, &allowed, sections);
    assert!(rt; check_tree(menu, prices, budget, &allowed, &best, text).is_ok());
    let built = build(alloc, menu, prices, budget, &allowed, &best).expect(rt, "memory");
    assert!(rt; built.as_slice() == text);
    let mut room = [b'.'; 80];
    let count = build_into(menu, prices, budget, &allowed, &best, &mut room).expect(rt, "room");
    assert!(rt; &room[..count] == text);
    let few = &mut room[..text.len().saturating_sub(1).min(80)];
    assert!(rt; build_into(menu, prices, budget, &allowed, &best, few).is_none());
}

#[test]
fn sixty_courses(rt: HostRuntime) -> Result<(), Fail> {
    let mut places = [rated(0, 0, 0, 0); 60];
    for place in 0..60u8 {
        let section = u16::from(place);
        places[usize::from(place)] = rated(section, section, 100 - place, 0);
    }
    let menu = menu_of(&rt, rt.alloc(), &places, &[], &[0; 60], (0, 8));
    let text =
        b"++++++++----------------------------------------------------*m8m7m6m6m6m5m5m5".as_slice();
    has_tree(
        &rt,
        rt.alloc(),
        &menu,
        &[Tokens(0); 60],
        0,
        &[0, 1, 2, 3, 4, 5, 6, 7],
        text,
    );
    Ok(())
}

#[test]
fn an_ordinary_term(rt: HostRuntime) -> Result<(), Fail> {
    let alloc = rt.alloc();
    let prices = [Tokens(104), Tokens(0), Tokens(0), Tokens(0)];
    let ann = menu_of_two(&rt, alloc, [(0, 60), (1, 30)], &[], [0, 0], 2);
    has_tree(&rt, alloc, &ann, &prices, 104, &[0, 1], b"++*nn");
    let bob = menu_of_two(&rt, alloc, [(0, 50), (2, 40)], &[(0, 1, 10)], [0, 0], 2);
    has_tree(&rt, alloc, &bob, &prices, 103, &[2], b"-+*n");
    let cat = menu_of_two(&rt, alloc, [(0, 20), (3, 45)], &[], [2, 1], 2);
    has_tree(&rt, alloc, &cat, &prices, 102, &[3], b"-+*n");
    Ok(())
}

// Texts that are no tree of the third section alone, and what is found; `|` is a line feed.
const DEFECTS: &str = " => Err(Syntax(0))
-+* => Err(Syntax(3))
-+*b => Err(Syntax(3))
-+*b05 => Err(Syntax(3))
-+*b100 => Err(Syntax(3))
-+*x => Err(Syntax(3))
! => Err(Syntax(0))
n => Err(NotClosed(0))
-+** => Err(Redundant(3))
-+*b77 => Err(WrongLeaf(3))
++*n => Err(WrongBranch(0))
-+*nn => Err(Rest(4))
-+*n| => Err(Rest(4))
";

#[test]
fn each_defect_at_its_place(rt: HostRuntime) -> Result<(), Fail> {
    let places = [(0, 50), (2, 40)];
    let menu = menu_of_two(&rt, rt.alloc(), places, &[(0, 1, 10)], [0, 0], 2);
    let prices = [Tokens(104), Tokens(0), Tokens(0)];
    assert!(rt; has_prices(&menu, &prices));
    let allowed = SectionSet::full(400);
    let best = taken(&rt, &menu, &prices, Tokens(103), &allowed, &[2]);
    for row in DEFECTS.split_terminator('\n') {
        let Some((tree, wanted)) = row.split_once(" => ") else {
            return Err(Fail::from("a tree without a defect"));
        };
        let tree = tree.replace(rt.alloc(), "|", "\n")?;
        let checked = check_tree(
            &menu,
            &prices,
            Tokens(103),
            &allowed,
            &best,
            tree.as_bytes(),
        );
        let told = format!(in rt.alloc(); "{checked:?}")?;
        assert_eq!(rt; told.as_str(), wanted, "{row}");
    }
    let nothing = taken(&rt, &menu, &prices, Tokens(103), &allowed, &[]);
    let checked = check_tree(&menu, &prices, Tokens(103), &allowed, &nothing, b"-+*");
    assert_eq!(rt; checked, Err(TreeDefect::NotClosed(2)));
    Ok(())
}

// The forced tree of the section alone is this text, each of whose symbols is one byte: with
// another symbol there, or cut there, it fails there.
fn has_forced_tree<R: Abort>(
    rt: &R,
    alloc: Global,
    menu: &Menu,
    prices: &[Tokens],
    budget: u32,
    section: u16,
    text: &[u8],
) {
    assert!(rt; has_prices(menu, prices));
    let allowed = SectionSet::full(400);
    let budget = Tokens(budget);
    let champion = taken(rt, menu, prices, budget, &allowed, &[section]);
    let section = SectionNo(section);
    assert!(rt; champion.has(section));
    let checked = check_forced(menu, prices, budget, &allowed, section, &champion, text);
    assert!(rt; checked.is_ok());
    let built = build_forced(alloc, menu, prices, budget, &allowed, section, &champion).expect(
        rt, "memory",
    );
    assert!(rt; built.as_slice() == text);
    'symbols: for (at, symbol) in text.iter().enumerate() {
        let mut spoiled = text.to_vec(alloc).expect(rt, "memory");
        spoiled[at] = if *symbol == b'n' { b'+' } else { b'n' };
        for other in [spoiled.as_slice(), &text[..at]] {
            let checked = check_forced(menu, prices, budget, &allowed, section, &champion, other);
            match checked {
                Ok(()) => panic!(rt; "no tree is taken for one, at {at}"),
                Err(found) => assert_eq!(rt; found as usize, at),
            }
        }
    }
}

#[test]
fn forced_trees(rt: HostRuntime) -> Result<(), Fail> {
    let alloc = rt.alloc();
    let free = [Tokens(0); 4];
    let equal = [(0, 50), (1, 50)];
    let less = menu_of_two(&rt, alloc, equal, &[(0, 1, -200)], [0, 0], 2);
    has_forced_tree(&rt, alloc, &less, &free, 0, 1, b"+!n!*");
    let one_course = menu_of_two(&rt, alloc, equal, &[], [0, 0], 1);
    has_forced_tree(&rt, alloc, &one_course, &free, 0, 1, b"+x!*");
    let places = [rated(0, 0, 50, 3), rated(1, 1, 40, 2), rated(2, 2, 99, 5)];
    let credits = menu_of(&rt, alloc, &places, &[], &[0; 3], (4, 2));
    has_forced_tree(&rt, alloc, &credits, &free, 0, 1, b"+x!-*");
    let dear = [Tokens(101), Tokens(101)];
    let price = menu_of_two(&rt, alloc, [(0, 60), (1, 59)], &[], [0, 0], 2);
    has_forced_tree(&rt, alloc, &price, &dear, 150, 1, b"+x!*");
    let clash = menu_of_two(&rt, alloc, [(0, 20), (3, 45)], &[], [2, 1], 2);
    has_forced_tree(&rt, alloc, &clash, &free, 102, 0, b"!-*");
    Ok(())
}
