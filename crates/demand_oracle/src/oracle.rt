// The best bundle, by a depth-first search that prunes nodes by what can still be reached from
// them.
ghost use Rattle.std.specs.Prelude.{◌≡◌, ◌<◌, ◌≤◌, ◌+◌, ◌++◌, [], ◌∷◌, ℕ, List, true, IfSome, IfNone, length, map};
ghost use Rattle.std.specs.FinSet as set;
ghost use Rattle.bundle_rules.specs.Bundles.{sections_of};
ghost use Rattle.bundle_rules.specs.Demand.{price_in, HasPrices, IsBest};
ghost use Rattle.bundle_rules.specs.Given.{IsBestWith, SomeHas};
ghost use Rattle.bundle_rules.specs.Menus.{wishes_of, section_at};
ghost use Rattle.bundle_rules.specs.{Ranks.named, Wishes.AllRated};
ghost use Rattle.market_units.specs.Members.{has};
ghost use Rattle.bundle_bounds.specs.{Laws.IsTakable, Offers.offer_of, Views.data_of};
ghost use Rattle.demand_oracle.specs.Beside.{LeadsThoseWithout};
ghost use Rattle.demand_oracle.specs.{Bests.AreBest, Bests.IsAmong, BestViews.bundles_of};
ghost use Rattle.demand_oracle.specs.Champions.{IsChampion, kept_of, nodes_of};
ghost use Rattle.demand_oracle.specs.Search.{aim_by, wanted_by, bundles_kept, LeadAim, LeadWanted};
ghost use Rattle.demand_oracle.specs.Names.{HoldsNames};
ghost use Rattle.demand_oracle.specs.SummedNodes.{chosen_of};

use crate::asked::Asked;
use crate::below::below;
use crate::best::Best;
use crate::goods::Goods;
use crate::leaders::Leaders;
use crate::names::Names;
use crate::question::Question;
use crate::reach::{Reach, begun_with};
use crate::renaming::{allowed_in_order, given_in_order, positions_of, prices_in_order};
use crate::spot::Spot;
use crate::step::{Step, node_of};
use crate::summed_node::SummedNode;
use crate::tables::MOST_PLACES;
use bundle_bounds::Offer;
use bundle_rules::{Bundle, Menu, Ranked, prefers};
use market_units::{NoMemory, SectionNo, SectionSet, Tokens};
use std::alloc::Global;
use std::marker::Model;

/// What a demand works in. It is reserved once, and serves any number of demands, one after
/// another.
#[derive(Drop)]
pub struct Workspace {
    frames: Frames,
}

// How many nodes the last search opened, and what more each can reach. The table stands last: its
// end is seldom written, so that what a search writes shares no line of the cache with the workspace
// of another thread that stands next to it.
#[derive(Drop)]
struct Frames {
    opened: u64,
    reach: Reach,
}

impl Model for Workspace {
    ghost use Rattle.std.specs.Prelude.{⊤, ◌≡◌, []};

    // What an earlier demand left tells nothing of a later one.
    ghost Value = { ⊤ };

    ghost view = { λ _. tt };
}

impl Workspace {
    /// A workspace of which no demand was asked. All that it holds stands in itself, so that it takes
    /// no memory of the allocator, and this is an `Ok`.
    pub fn reserve(_alloc: Global) -> Result<Workspace, NoMemory> {
        Ok(Workspace {
            frames: Frames {
                opened: 0,
                reach: Reach::empty(),
            },
        })
    }

    /// How many nodes the last demand opened: those of which it looked up what can be reached. A
    /// place that can not be taken with the chosen ones is passed without one, and a node that is not
    /// made, since too little can be reached from it, is none. It is there to be measured: no clause
    /// speaks of it.
    pub fn opened(&self) -> u64 {
        self.frames.opened
    }
}

/// The best bundle: the feasible one of allowed sections, of price sum at most the budget, that is
/// preferred to every other such bundle. It takes no memory. There is a price for each section of
/// the menu, each at most 1,000,001.
pub fn demand(
    workspace: &mut Workspace,
    menu: &Menu,
    prices: &[Tokens],
    budget: Tokens,
    allowed: &SectionSet,
) -> Bundle
    requires { HasPrices menu.now prices.now }
    ensures { IsBest (wishes_of menu.now) (price_in prices.now) budget.0 (set.contains allowed.now)
        (sections_of result) }
{
    let offer = Offer {
        menu: menu.rows(),
        prices,
        budget,
        allowed,
    };
    let asked = Asked {
        offer: &offer,
        given: None,
    };
    search(&mut workspace.frames, menu, &asked, None, 1).first()
}

/// The same, found sooner where this bundle, or what may be taken of it, is nearly the best. Any
/// bundle is right.
pub fn demand_from(
    workspace: &mut Workspace,
    menu: &Menu,
    prices: &[Tokens],
    budget: Tokens,
    allowed: &SectionSet,
    first: &Bundle,
) -> Bundle
    requires { HasPrices menu.now prices.now }
    ensures { IsBest (wishes_of menu.now) (price_in prices.now) budget.0 (set.contains allowed.now)
        (sections_of result) }
{
    let offer = Offer {
        menu: menu.rows(),
        prices,
        budget,
        allowed,
    };
    let asked = Asked {
        offer: &offer,
        given: None,
    };
    search(&mut workspace.frames, menu, &asked, Some(first), 1).first()
}

/// The best bundle with a given section: the feasible one of allowed sections with this one among
/// them, of price sum at most the budget, that is preferred to every other such bundle. `None`
/// exactly where there is no such bundle, as where the section is not on the menu. It takes no
/// memory. There is a price for each section of the menu, each at most 1,000,001.
pub fn demand_with(
    workspace: &mut Workspace,
    menu: &Menu,
    prices: &[Tokens],
    budget: Tokens,
    allowed: &SectionSet,
    section: SectionNo,
) -> Option<Bundle>
    requires { HasPrices menu.now prices.now }
    ensures some { IfSome result
        (λ bundle. IsBestWith (wishes_of menu.now) (price_in prices.now) budget.0
        (set.contains allowed.now) section.0 (sections_of bundle)) }
    ensures none { IfNone result
        (¬ SomeHas (wishes_of menu.now) (price_in prices.now) budget.0 (set.contains allowed.now)
        section.0) }
{
    workspace.frames.opened = 0;
    let offer = Offer {
        menu: menu.rows(),
        prices,
        budget,
        allowed,
    };
    let place = place_alone(menu, &offer, section)?;
    let asked = Asked {
        offer: &offer,
        given: Some(place),
    };
    let best = search(&mut workspace.frames, menu, &asked, None, 1);
    Some(best.first())
}

/// The best bundle, found sooner where a bundle is known that is preferred to every other choice
/// without a given section, as the best bundle before this section alone became cheaper is: only
/// bundles with the section are searched for a better one. It takes no memory. There is a price for
/// each section of the menu, each at most 1,000,001.
pub fn demand_beside(
    workspace: &mut Workspace,
    menu: &Menu,
    prices: &[Tokens],
    budget: Tokens,
    allowed: &SectionSet,
    section: SectionNo,
    first: &Bundle,
) -> Bundle
    requires prices { HasPrices menu.now prices.now }
    requires first { LeadsThoseWithout (wishes_of menu.now) (price_in prices.now) budget.0
        (set.contains allowed.now) section.0 (sections_of first.now) }
    ensures { IsBest (wishes_of menu.now) (price_in prices.now) budget.0 (set.contains allowed.now)
        (sections_of result) }
{
    workspace.frames.opened = 0;
    let offer = Offer {
        menu: menu.rows(),
        prices,
        budget,
        allowed,
    };
    let Some(place) = place_alone(menu, &offer, section) else {
        return *first;
    };
    let given = Some(place);
    let asked = Asked {
        offer: &offer,
        given,
    };
    let found = search(&mut workspace.frames, menu, &asked, Some(first), 1).first();
    if prefers(menu, first, &found) {
        return *first;
    }
    found
}

/// The best bundles, the most preferred first: at least one, of 1 to 8 that are asked for (that there
/// are so many, where there are so many to choose from, no clause says). At higher prices the first
/// of them that is still affordable is the best (`Best::first_within`). They are found sooner where
/// a first bundle is told that is nearly the best. Any bundle is right. It takes no memory. There is
/// a price for each section of the menu, each at most 1,000,001.
pub fn best_few(
    workspace: &mut Workspace,
    menu: &Menu,
    prices: &[Tokens],
    budget: Tokens,
    allowed: &SectionSet,
    first: Option<&Bundle>,
    most: usize,
) -> Best
    requires prices { HasPrices menu.now prices.now }
    requires most { (1 ≤ most) × (most ≤ 8) }
    ensures { AreBest (wishes_of menu.now) (price_in prices.now) budget.0
        (set.contains allowed.now) (bundles_of result) }
{
    let offer = Offer {
        menu: menu.rows(),
        prices,
        budget,
        allowed,
    };
    let asked = Asked {
        offer: &offer,
        given: None,
    };
    search(&mut workspace.frames, menu, &asked, first, most)
}

// The place of a section that may be taken alone; `None` exactly where it may be in no bundle.
fn place_alone(menu: &Menu, offer: &Offer, section: SectionNo) -> Option<u8>
    requires { menu.now ≡ offer.now.menu.now }
    ensures place { IfSome result
        (λ place. (place < length offer.now.menu.now.places)
        × (section_at menu.now.places place ≡ section.0)) }
    ensures alone { IfSome result
        (λ place. IsTakable (data_of offer.now)
        (section_at offer.now.menu.now.places place ∷ [])) }
    ensures none { IfNone result
        (¬ SomeHas (wishes_of menu.now) (price_in offer.now.prices.now)
        offer.now.budget.0 (set.contains offer.now.allowed.now)
        section.0) }
{
    let rows = offer.menu;
    let place = rows.place(section);
    if place >= rows.len() {
        return None;
    }
    let root = SummedNode::root();
    let step = Step {
        offer,
        summed: &root,
        place,
    };
    if !step.may_take() {
        return None;
    }
    Some(place)
}

// What the search below the root keeps: at most so many. Where a first bundle is told, as a word of
// places, the search may begin with it, and where a place is given too, it may end with it: with
// what is as good as all bundles with the section.
fn found(
    frames: &mut Frames,
    asked: &Asked,
    names: &Names,
    first: Option<u64>,
    most: usize,
) -> Leaders
    requires names { HoldsNames asked.now.offer.now.menu.now names.now }
    requires most { (1 ≤ most) × (most ≤ 8) }
    ensures few { length (nodes_of result.leading) < 8 }
    ensures leads { LeadAim (data_of asked.now.offer.now)
        (aim_by asked.now.offer.now.menu.now asked.now.given names.now)
        (bundles_kept (kept_of result)) }
    ensures wanted { IfNone first
        ((bundle : List ℕ) → IsAmong bundle (bundles_kept (kept_of result))
        → wanted_by asked.now.offer.now.menu.now asked.now.given bundle ≡ true) }
{
    let offer = asked.offer;
    frames.reach.measure(offer);
    let goods = Goods::of(offer);
    let reach = &frames.reach;
    let champion = first_champion(reach, asked, first);
    let mut leaders = Leaders::begun(champion, most);
    let question = Question {
        offer,
        given: asked.given,
        reach,
        goods: &goods,
        names,
    };
    frames.opened = below(&question, &SummedNode::root(), goods.alone, &mut leaders);
    leaders
}

// The champion that a search begins with: where a place is given, its section alone, or what may be
// taken of the first bundle where one is told; and where none is given a node that begins well, or
// that of the first bundle where it is worth no less.
fn first_champion(reach: &Reach, asked: &Asked, first: Option<u64>) -> SummedNode
    ensures champion { IsChampion (data_of asked.now.offer.now) result }
    ensures wanted { IfNone first
        (wanted_by asked.now.offer.now.menu.now asked.now.given (chosen_of result) ≡ true) }
{
    let offer = asked.offer;
    if let Some(place) = asked.given {
        return begun_beside(&Spot { offer, place }, first);
    }
    let drafted = begun_with(offer, reach.drafted(offer));
    let Some(word) = first else {
        return drafted;
    };
    let begun = begun_with(offer, word);
    if begun.utility() >= drafted.utility() {
        return begun;
    }
    drafted
}

// The section of the given place alone, or what may be taken of the first bundle, where one is
// told.
fn begun_beside(spot: &Spot, first: Option<u64>) -> SummedNode
    requires alone { IsTakable (data_of spot.now.offer.now)
        (section_at spot.now.offer.now.menu.now.places spot.now.place ∷ []) }
    ensures champion { IsChampion (data_of spot.now.offer.now) result }
    ensures wanted { IfNone first
        (has (chosen_of result)
        (section_at spot.now.offer.now.menu.now.places spot.now.place) ≡ true) }
{
    let offer = spot.offer;
    match first {
        Some(word) => begun_with(offer, word),
        None => node_of(spot),
    }
}

// The best bundles of what is asked, at most so many, found over the positions of the menu's search
// order. Where a first bundle is told, the search may begin with it, and where a place is given too,
// it may end with it: with what is as good as all bundles with the section.
fn search(
    frames: &mut Frames,
    menu: &Menu,
    asked: &Asked,
    first: Option<&Bundle>,
    most: usize,
) -> Best
    requires menu { menu.now ≡ asked.now.offer.now.menu.now }
    requires most { (1 ≤ most) × (most ≤ 8) }
    ensures leads { LeadWanted
        (offer_of menu.now asked.now.offer.now.prices.now asked.now.offer.now.budget.0
        asked.now.offer.now.allowed.now)
        (wanted_by menu.now asked.now.given) (bundles_of result) }
    ensures wanted { IfNone first.entry
        ((bundle : List ℕ) → IsAmong bundle (bundles_of result)
        → wanted_by menu.now asked.now.given bundle ≡ true) }
{
    let ranked = menu.ranked();
    prove!(ranked.menu.len() <= MOST_PLACES);
    prove!(ranked.rows.len() <= MOST_PLACES);
    let prices = prices_in_order(&ranked, asked.offer);
    let allowed = allowed_in_order(&ranked, asked.offer);
    let offer = Offer {
        menu: ranked.rows,
        prices: &prices,
        budget: asked.offer.budget,
        allowed: &allowed,
    };
    let given = given_in_order(&ranked, asked);
    let renamed = Asked {
        offer: &offer,
        given,
    };
    let names = Names::of(&ranked);
    let word = positions_of(&ranked, first);
    let best = found(frames, &renamed, &names, word, most);
    named_best(&ranked, &best)
}

// What is kept, by the sections at its positions.
fn named_best(ranked: &Ranked, leaders: &Leaders) -> Best
    requires rated { (bundle : List ℕ) → IsAmong bundle (bundles_kept (kept_of leaders.now))
        → AllRated (wishes_of ranked.now.rows.now) bundle }
    requires few { length (nodes_of leaders.now.leading) < 8 }
    ensures { bundles_of result
        ≡ map (named ranked.now.menu.now ranked.now.order.now) (bundles_kept (kept_of leaders.now)) }
{
    let leading = named_behind(ranked, Best::none(), leaders.leading.as_slice());
    leading.with(ranked.named(&leaders.champion.node.chosen))
}

// The nodes by the sections at their positions, behind some bundles.
fn named_behind(ranked: &Ranked, best: Best, nodes: &[SummedNode]) -> Best
    requires rated { (bundle : List ℕ) → IsAmong bundle (map chosen_of nodes.now)
        → AllRated (wishes_of ranked.now.rows.now) bundle }
    requires few { length (bundles_of best) + length nodes.now < 8 }
    ensures { bundles_of result
        ≡ bundles_of best
        ++ map (named ranked.now.menu.now ranked.now.order.now) (map chosen_of nodes.now) }
{
    match nodes {
        [] => best,
        [first, others @ ..] => {
            let more = best.with(ranked.named(&first.node.chosen));
            named_behind(ranked, more, others)
        }
    }
}
