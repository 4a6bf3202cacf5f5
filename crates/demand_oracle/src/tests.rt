// A menu whose best bundle is plain to see, and made menus at which trying all bundles tells the
// answer.
ghost use Rattle.std.specs.Prelude.{◌≡◌, ◌<◌};

use super::*;
use bundle_bounds::Offer;
use bundle_rules::{Bundle, Menu, Rated, best_plain, feasible, has_prices, prefers};
use market_units::{MAX_SECTIONS, SectionNo, SectionSet, Tokens};
use std::alloc::Global;
use std::process::Abort;
use std::test::Fail;

const PLAIN: Rated = Rated {
    section: SectionNo(0),
    course: 0,
    rating: 1,
    credits: 0,
};

#[test]
fn the_first_eight_of_sixty(rt: HostRuntime) -> Result<(), Fail> {
    let mut places = [PLAIN; 60];
    for place in 0..60u8 {
        places[usize::from(place)] = Rated {
            section: SectionNo(u16::from(place)),
            course: u16::from(place),
            rating: 100 - place,
            credits: 0,
        };
    }
    assert!(rt; Menu::may_build(&places, &[], &[0; 60], 0, 8));
    let menu = Menu::build(rt.alloc(), &places, &[], &[0; 60], 0, 8).expect(&rt, "memory");
    let prices = [Tokens(0); 60];
    assert!(rt; has_prices(&menu, &prices));
    let allowed = SectionSet::full(60);
    let mut workspace = Workspace::reserve(rt.alloc()).expect(&rt, "memory");
    assert_eq!(rt; workspace.opened(), 0);
    let best = demand(&mut workspace, &menu, &prices, Tokens(0), &allowed);
    let first_eight = [0, 1, 2, 3, 4, 5, 6, 7].map(SectionNo);
    assert_eq!(rt; best.sections(), first_eight.as_slice());
    let opened = workspace.opened();
    assert!(rt; (9..=1000).contains(&opened));
    let again = demand(&mut workspace, &menu, &prices, Tokens(0), &allowed);
    assert_eq!(rt; again, best);
    assert_eq!(rt; workspace.opened(), opened);
    let nothing = demand(
        &mut workspace,
        &menu,
        &prices,
        Tokens(0),
        &SectionSet::empty(),
    );
    assert_eq!(rt; nothing.sections().len(), 0);
    // Where no section is allowed, nothing has to be looked up.
    assert_eq!(rt; workspace.opened(), 0);
    Ok(())
}

// The next made number below the limit.
fn made(seed: &mut u64, limit: u16) -> u16
    requires { 0 < limit }
    ensures { result < limit }
{
    *seed = seed
        .wrapping_mul(6364136223846793005)
        .wrapping_add(1442695040888963407);
    ((*seed >> 33) % u64::from(limit)) as u16
}

const ROOM: usize = 12;

fn made_places(seed: &mut u64) -> [Rated; ROOM] {
    let mut places = [PLAIN; ROOM];
    for i in 0..12u16 {
        places[usize::from(i)] = Rated {
            section: SectionNo(3 * i + made(seed, 3)),
            course: made(seed, 9),
            rating: 1 + made(seed, 100) as u8,
            credits: made(seed, 5),
        };
    }
    places
}

// A pair of each even place and the next.
fn made_pairs(seed: &mut u64) -> [(u8, u8, i16); 6] {
    let mut pairs = [(0, 0, 0); 6];
    for i in 0..6u8 {
        pairs[usize::from(i)] = (2 * i, 2 * i + 1, made(seed, 401) as i16 - 200);
    }
    pairs
}

// Writes the clashes of a place with the places before it.
fn put_clashes(seed: &mut u64, places: &[Rated; ROOM], a: usize, clashes: &mut [u64; ROOM])
    requires { a < 12 }
{
    for b in 0..a {
        if places[a].course == places[b].course || made(seed, 8) == 0 {
            clashes[a] |= 1 << b;
            clashes[b] |= 1 << a;
        }
    }
}

fn made_clashes(seed: &mut u64, places: &[Rated; ROOM]) -> [u64; ROOM] {
    let mut clashes = [0; ROOM];
    for a in 0..ROOM {
        put_clashes(seed, places, a, &mut clashes);
    }
    clashes
}

fn made_prices(seed: &mut u64) -> [Tokens; 36] {
    let mut prices = [Tokens(0); 36];
    for price in prices.iter_mut() {
        *price = Tokens(u32::from(made(seed, 60)));
    }
    prices
}

fn made_allowed(seed: &mut u64) -> SectionSet {
    let mut allowed = SectionSet::full(36);
    for _ in 0..6 {
        allowed = allowed.without(SectionNo(made(seed, 36)));
    }
    allowed
}

fn made_menu<R: Abort>(rt: &R, alloc: Global, seed: &mut u64) -> Menu {
    let places = made_places(seed);
    let pairs = made_pairs(seed);
    let clashes = made_clashes(seed, &places);
    let count = usize::from(1 + made(seed, 12));
    let places = &places[..count];
    let pairs = &pairs[..count / 2];
    let clashes = &clashes[..count];
    let credits = made(seed, 25);
    let courses = made(seed, 9) as u8;
    assert!(rt; Menu::may_build(places, pairs, clashes, credits, courses));
    Menu::build(alloc, places, pairs, clashes, credits, courses).expect(rt, "memory")
}

#[test]
fn what_trying_all_choices_finds(rt: HostRuntime) -> Result<(), Fail> {
    let mut seed = 1;
    let mut workspace = Workspace::reserve(rt.alloc()).expect(&rt, "memory");
    for turn in 0..100 {
        let menu = made_menu(&rt, rt.alloc(), &mut seed);
        let prices = made_prices(&mut seed);
        let budget = Tokens(u32::from(made(&mut seed, 200)));
        let allowed = made_allowed(&mut seed);
        assert!(rt; has_prices(&menu, &prices));
        let best = demand(&mut workspace, &menu, &prices, budget, &allowed);
        assert_eq!(rt;
            best,
            best_plain(&menu, &prices, budget, &allowed),
            "at turn {turn}"
        );
        let first = chosen(&menu, u32::from(made(&mut seed, 4096)));
        let again = demand_from(&mut workspace, &menu, &prices, budget, &allowed, &first);
        assert!(rt; again == best, "at turn {turn}");
    }
    Ok(())
}

// The sections of the menu that these bits choose, of more than 8 the first 8.
fn chosen(menu: &Menu, bits: u32) -> Bundle {
    let mut bundle = Bundle::empty();
    for place in 0..menu.len() {
        let section = menu.rated(place).section;
        let is_chosen = (bits >> (place % 32)) & 1 == 1;
        if is_chosen && bundle.sections().len() < 8 && bundle.is_below(section) {
            bundle = bundle.with(section);
        }
    }
    bundle
}

fn price_of(prices: &[Tokens], bundle: &Bundle) -> u32 {
    let mut sum: u32 = 0;
    for section in bundle.sections() {
        if let Some(price) = prices.get(usize::from(section.0)) {
            sum = sum.saturating_add(price.0);
        }
    }
    sum
}

fn all_allowed(allowed: &SectionSet, bundle: &Bundle) -> bool {
    for section in bundle.sections() {
        if section.0 >= 400 || !allowed.has(*section) {
            return false;
        }
    }
    true
}

// The best bundle with a section, by trying all bundles of a menu of at most 12 places.
fn best_with<R: Abort>(
    rt: &R,
    menu: &Menu,
    prices: &[Tokens],
    budget: Tokens,
    allowed: &SectionSet,
    section: SectionNo,
) -> Option<Bundle> {
    let mut best: Option<Bundle> = None;
    for bits in 0..4096 {
        let bundle = chosen(menu, bits);
        let is_cheap = price_of(prices, &bundle) <= budget.0;
        if bundle.has(section) && is_cheap && all_allowed(allowed, &bundle) {
            best = better_of(rt, menu, bundle, best);
        }
    }
    best
}

// The bundle, where it is feasible and preferred to the other.
fn better_of<R: Abort>(
    rt: &R,
    menu: &Menu,
    bundle: Bundle,
    other: Option<Bundle>,
) -> Option<Bundle> {
    if !feasible(menu, &bundle) {
        return other;
    }
    match other {
        Some(held) => {
            assert!(rt; feasible(menu, &held));
            if prefers(menu, &bundle, &held) {
                Some(bundle)
            } else {
                Some(held)
            }
        }
        None => Some(bundle),
    }
}

#[test]
fn the_best_with_a_given_section(rt: HostRuntime) -> Result<(), Fail> {
    let mut seed = 2;
    let mut workspace = Workspace::reserve(rt.alloc()).expect(&rt, "memory");
    let (mut no_bundle, mut not_wanted) = (0u32, 0u32);
    for turn in 0..100 {
        let menu = made_menu(&rt, rt.alloc(), &mut seed);
        let prices = made_prices(&mut seed);
        let budget = Tokens(u32::from(made(&mut seed, 200)));
        let allowed = made_allowed(&mut seed);
        assert!(rt; menu.len() > 0);
        let place = made(&mut seed, u16::from(menu.len())) as u8;
        assert!(rt; place < menu.len());
        let section = menu.rated(place).section;
        assert!(rt; has_prices(&menu, &prices));
        let best = demand_with(&mut workspace, &menu, &prices, budget, &allowed, section);
        let tried = best_with(&rt, &menu, &prices, budget, &allowed, section);
        assert!(rt; best == tried, "at turn {turn}");
        let plain = demand(&mut workspace, &menu, &prices, budget, &allowed);
        no_bundle = no_bundle.wrapping_add(u32::from(best.is_none()));
        not_wanted = not_wanted.wrapping_add(u32::from(best.is_some() && !plain.has(section)));
        let off_menu = SectionNo(36);
        let none = demand_with(&mut workspace, &menu, &prices, budget, &allowed, off_menu);
        assert!(rt; none.is_none());
    }
    // Both kinds occur: a section of the menu that fits nowhere, and one that the plain demand
    // lacks.
    assert!(rt; no_bundle >= 10);
    assert!(rt; not_wanted >= 10);
    Ok(())
}

// The best bundle, found beside the best one without a section.
fn best_beside(workspace: &mut Workspace, menu: &Menu, offer: &Offer, section: SectionNo) -> Bundle
    requires menu { menu.now ≡ offer.now.menu.now }
    requires section { section.0 < MAX_SECTIONS }
{
    let prices = offer.prices;
    let fewer = offer.allowed.without(section);
    let first = demand(workspace, menu, prices, offer.budget, &fewer);
    demand_beside(
        workspace,
        menu,
        prices,
        offer.budget,
        offer.allowed,
        section,
        &first,
    )
}

// The best bundle, found beside itself: where it has the section, the search begins with a bundle
// that has it.
fn best_beside_itself(
    workspace: &mut Workspace,
    menu: &Menu,
    offer: &Offer,
    section: SectionNo,
) -> Bundle
    requires { menu.now ≡ offer.now.menu.now }
{
    let prices = offer.prices;
    let first = demand(workspace, menu, prices, offer.budget, offer.allowed);
    demand_beside(
        workspace,
        menu,
        prices,
        offer.budget,
        offer.allowed,
        section,
        &first,
    )
}

#[test]
fn the_best_beside_one_without_a_section(rt: HostRuntime) -> Result<(), Fail> {
    let mut seed = 3;
    let mut workspace = Workspace::reserve(rt.alloc()).expect(&rt, "memory");
    let (mut with_it, mut without) = (0u32, 0u32);
    for turn in 0..100 {
        let menu = made_menu(&rt, rt.alloc(), &mut seed);
        let prices = made_prices(&mut seed);
        let budget = Tokens(u32::from(made(&mut seed, 200)));
        let allowed = made_allowed(&mut seed);
        assert!(rt; menu.len() > 0);
        let place = made(&mut seed, u16::from(menu.len())) as u8;
        assert!(rt; place < menu.len());
        let section = menu.rated(place).section;
        assert!(rt; has_prices(&menu, &prices));
        let offer = Offer {
            menu: menu.rows(),
            prices: &prices,
            budget,
            allowed: &allowed,
        };
        let best = best_beside(&mut workspace, &menu, &offer, section);
        let plain = demand(&mut workspace, &menu, &prices, budget, &allowed);
        assert!(rt; best == plain, "at turn {turn}");
        let again = best_beside_itself(&mut workspace, &menu, &offer, section);
        assert!(rt; again == plain, "at turn {turn}");
        with_it = with_it.wrapping_add(u32::from(best.has(section)));
        without = without.wrapping_add(u32::from(!best.has(section)));
    }
    // Both kinds occur.
    assert!(rt; with_it >= 5);
    assert!(rt; without >= 20);
    Ok(())
}

// The best of all bundles but these that are allowed and affordable, by trying all of a menu of at
// most 12 places.
fn best_but<R: Abort>(
    rt: &R,
    menu: &Menu,
    prices: &[Tokens],
    budget: Tokens,
    allowed: &SectionSet,
    earlier: &[Bundle],
) -> Option<Bundle> {
    let mut best: Option<Bundle> = None;
    for bits in 0..4096 {
        let bundle = chosen(menu, bits);
        let is_cheap = price_of(prices, &bundle) <= budget.0;
        if is_cheap && all_allowed(allowed, &bundle) && !is_one_of(earlier, &bundle) {
            best = better_of(rt, menu, bundle, best);
        }
    }
    best
}

fn is_one_of(bundles: &[Bundle], bundle: &Bundle) -> bool {
    for other in bundles {
        if other == bundle {
            return true;
        }
    }
    false
}

#[test]
fn the_eight_best_in_order(rt: HostRuntime) -> Result<(), Fail> {
    let mut seed = 4;
    let mut workspace = Workspace::reserve(rt.alloc()).expect(&rt, "memory");
    let (mut eight, mut fewer) = (false, false);
    for turn in 0..20 {
        let menu = made_menu(&rt, rt.alloc(), &mut seed);
        let prices = made_prices(&mut seed);
        let budget = Tokens(u32::from(made(&mut seed, 200)));
        let allowed = made_allowed(&mut seed);
        let first = chosen(&menu, u32::from(made(&mut seed, 4096)));
        assert!(rt; has_prices(&menu, &prices));
        let told = if turn < 10 { None } else { Some(&first) };
        let best = best_few(
            &mut workspace,
            &menu,
            &prices,
            budget,
            &allowed,
            told,
            MOST_KEPT,
        );
        let bundles = best.as_slice();
        for place in 0..bundles.len() {
            let next = best_but(&rt, &menu, &prices, budget, &allowed, &bundles[..place]);
            assert!(rt;
                next == Some(bundles[place]),
                "at turn {turn}, place {place}"
            );
        }
        if bundles.len() == 8 {
            eight = true;
        } else {
            let next = best_but(&rt, &menu, &prices, budget, &allowed, bundles);
            assert!(rt; next.is_none(), "at turn {turn}");
            fewer = true;
        }
    }
    // Both kinds occur.
    assert!(rt; eight && fewer);
    Ok(())
}

// The first of the eight best that is affordable at raised prices.
fn first_after<R: Abort>(
    rt: &R,
    workspace: &mut Workspace,
    menu: &Menu,
    prices: &[Tokens],
    raised: &[Tokens],
    budget: Tokens,
    allowed: &SectionSet,
) -> Option<Bundle> {
    assert!(rt; has_prices(menu, prices));
    assert!(rt; has_prices(menu, raised));
    let best = best_few(workspace, menu, prices, budget, allowed, None, MOST_KEPT);
    best.first_within(menu, raised, budget)
}

#[test]
fn the_first_still_affordable_is_the_best(rt: HostRuntime) -> Result<(), Fail> {
    let mut seed = 5;
    let mut workspace = Workspace::reserve(rt.alloc()).expect(&rt, "memory");
    let (mut found, mut none) = (false, false);
    for turn in 0..50 {
        let menu = made_menu(&rt, rt.alloc(), &mut seed);
        let prices = made_prices(&mut seed);
        let mut raised = prices;
        for price in raised.iter_mut() {
            let more = u32::from(made(&mut seed, 40));
            *price = Tokens(price.0.saturating_add(more));
        }
        let budget = Tokens(u32::from(made(&mut seed, 200)));
        let allowed = made_allowed(&mut seed);
        let first = first_after(
            &rt,
            &mut workspace,
            &menu,
            &prices,
            &raised,
            budget,
            &allowed,
        );
        assert!(rt; has_prices(&menu, &raised));
        match first {
            Some(bundle) => {
                let best = best_plain(&menu, &raised, budget, &allowed);
                assert!(rt; bundle == best, "at turn {turn}");
                found = true;
            }
            None => none = true,
        }
    }
    // Both kinds occur.
    assert!(rt; found && none);
    Ok(())
}
