// Nodes of the search: what is open there, and which bound prunes them.
ghost use Rattle.std.specs.Prelude.{◌≡◌, ◌<◌, ◌&&◌, ℤ, nat_le, IfSome, IfNone, length};
ghost use Rattle.bundle_rules.specs.{Ahead.is_ahead, Bundles.sections_of, Demand.HasPrices};
ghost use Rattle.bundle_rules.specs.Wishes.{utility};
ghost use Rattle.bundle_rules.specs.{Menus.wishes_of, Wishes.AllRated, Wishes.IsFeasible};
ghost use Rattle.bundle_bounds.specs.Ahead.{limit_of, first_pruning};
ghost use Rattle.bundle_bounds.specs.Bounds.{bounds, HasBound, IsFirstPruning, NonePrunes};
ghost use Rattle.bundle_bounds.specs.{Laws.IsNode, Offers.offer_of, Offers.places_of};
ghost use Rattle.bundle_bounds.specs.{Opens.is_open, Views.data_of};

use crate::Offer;
use crate::base::Base;
use crate::chosen::Chosen;
use crate::opens::{Picks, collect, is_open_at, rests_of};
use crate::prospects::{NO_PROSPECTS, Prospects};
use crate::pruning::{bound_of, first_with, plain_sum};
use crate::tangents::Tangents;
use bundle_rules::{Bundle, Menu, Places, Rows, is_ahead};
use market_units::{SectionSet, Tokens};

/// A node: the places below `place` are decided, and of them those of `chosen` are taken.
#[derive(Clone, Copy, Debug)]
pub struct Node {
    pub place: u8,
    pub chosen: Bundle,
}

/// A bound by name: the plain one, or that of a resource by the place whose worth for what it takes
/// is the price.
#[derive(Clone, Copy, Debug, PartialEq, Eq)]
pub enum Leaf {
    Plain,
    Budget(u8),
    Credits(u8),
    Number(u8),
}

/// Whether a place is open at the node: not decided, allowed, without a clash with a chosen one,
/// and within what they leave of the budget, the credit cap and the course cap.
pub fn is_open(
    menu: &Menu,
    prices: &[Tokens],
    budget: Tokens,
    allowed: &SectionSet,
    node: &Node,
    place: u8,
) -> bool
    requires prices { HasPrices menu.now prices.now }
    requires node { IsNode (offer_of menu.now prices.now budget.0 allowed.now) node.now.place
        (sections_of node.now.chosen) }
    requires on_menu { place < length menu.now.places }
    ensures { result
        ≡ (nat_le node.now.place place
        && is_open (offer_of menu.now prices.now budget.0 allowed.now)
        (places_of menu.now (sections_of node.now.chosen)) place) }
{
    let offer = Offer {
        menu: menu.rows(),
        prices,
        budget,
        allowed,
    };
    is_open_in(&offer, node, place)
}

/// Whether a place of an offer is open at the node, as `is_open` says it of a menu.
pub fn is_open_in(offer: &Offer, node: &Node, place: u8) -> bool
    requires node { IsNode (data_of offer.now) node.now.place (sections_of node.now.chosen) }
    requires on_menu { place < length offer.now.menu.now.places }
    ensures { result
        ≡ (nat_le node.now.place place
        && is_open (data_of offer.now)
        (places_of offer.now.menu.now (sections_of node.now.chosen)) place) }
{
    if place < node.place {
        return false;
    }
    let places = Places::of(offer.menu, &node.chosen);
    let places = places.as_slice();
    let picks = Picks { offer, places };
    let rests = rests_of(&picks);
    let chosen = Chosen {
        offer,
        places,
        rests,
    };
    is_open_at(&chosen, place)
}

/// The number of a bound that is on the node's menu of bounds: at least 1000 times the utility of
/// every bundle that can still be reached.
pub fn bound(
    menu: &Menu,
    prices: &[Tokens],
    budget: Tokens,
    allowed: &SectionSet,
    node: &Node,
    leaf: Leaf,
) -> i64
    requires prices { HasPrices menu.now prices.now }
    requires node { IsNode (offer_of menu.now prices.now budget.0 allowed.now) node.now.place
        (sections_of node.now.chosen) }
    requires leaf { (number : ℤ)
        × HasBound
        (bounds (offer_of menu.now prices.now budget.0 allowed.now) node.now.place
        (places_of menu.now (sections_of node.now.chosen)))
        leaf number }
    ensures { HasBound
        (bounds (offer_of menu.now prices.now budget.0 allowed.now) node.now.place
        (places_of menu.now (sections_of node.now.chosen)))
        leaf result }
{
    let offer = Offer {
        menu: menu.rows(),
        prices,
        budget,
        allowed,
    };
    bound_in(&offer, node, leaf)
}

// The number of a bound that is on the menu of bounds of an offer's node.
fn bound_in(offer: &Offer, node: &Node, leaf: Leaf) -> i64
    requires node { IsNode (data_of offer.now) node.now.place (sections_of node.now.chosen) }
    requires leaf { (number : ℤ)
        × HasBound
        (bounds (data_of offer.now) node.now.place
        (places_of offer.now.menu.now (sections_of node.now.chosen)))
        leaf number }
    ensures { HasBound
        (bounds (data_of offer.now) node.now.place
        (places_of offer.now.menu.now (sections_of node.now.chosen)))
        leaf result }
{
    let places = Places::of(offer.menu, &node.chosen);
    let places = places.as_slice();
    let picks = Picks { offer, places };
    let rests = rests_of(&picks);
    let chosen = Chosen {
        offer,
        places,
        rests,
    };
    let mut room = NO_PROSPECTS;
    let from = node.place.min(offer.menu.len());
    let start = collect(&chosen, from, &mut room);
    let base = Base::of(offer.menu.utility(&node.chosen));
    let list = &room[start..];
    let all = Prospects { list };
    bound_of(base, rests, &all, leaf)
}

/// The first bound of the node's menu of bounds that prunes it for this champion: one below 1000
/// times the champion's utility, or below 1000 times one more than it where the first decided place
/// on which they differ is the champion's. `None` exactly where none prunes it.
pub fn bound_closes(
    menu: &Menu,
    prices: &[Tokens],
    budget: Tokens,
    allowed: &SectionSet,
    node: &Node,
    champion: &Bundle,
) -> Option<Leaf>
    requires prices { HasPrices menu.now prices.now }
    requires node { IsNode (offer_of menu.now prices.now budget.0 allowed.now) node.now.place
        (sections_of node.now.chosen) }
    requires champion { IsFeasible (wishes_of menu.now) (sections_of champion.now) }
    ensures first { IfSome result (IsFirstPruning (offer_of menu.now prices.now budget.0 allowed.now) node.now.place (places_of menu.now (sections_of node.now.chosen)) (places_of menu.now (sections_of champion.now))
        (bounds (offer_of menu.now prices.now budget.0 allowed.now) node.now.place (places_of menu.now (sections_of node.now.chosen)))) }
    ensures value { result
        ≡ first_pruning (offer_of menu.now prices.now budget.0 allowed.now) node.now.place
        (places_of menu.now (sections_of node.now.chosen))
        (places_of menu.now (sections_of champion.now)) }
    ensures none { IfNone result (NonePrunes (offer_of menu.now prices.now budget.0 allowed.now) node.now.place (places_of menu.now (sections_of node.now.chosen)) (places_of menu.now (sections_of champion.now))
        (bounds (offer_of menu.now prices.now budget.0 allowed.now) node.now.place (places_of menu.now (sections_of node.now.chosen)))) }
{
    let offer = Offer {
        menu: menu.rows(),
        prices,
        budget,
        allowed,
    };
    bound_closes_in(&offer, node, champion)
}

// The first bound of the menu of bounds of an offer's node that prunes it for this champion.
fn bound_closes_in(offer: &Offer, node: &Node, champion: &Bundle) -> Option<Leaf>
    requires node { IsNode (data_of offer.now) node.now.place (sections_of node.now.chosen) }
    requires champion { IsFeasible (wishes_of offer.now.menu.now) (sections_of champion.now) }
    ensures first { IfSome result (IsFirstPruning (data_of offer.now) node.now.place (places_of offer.now.menu.now (sections_of node.now.chosen)) (places_of offer.now.menu.now (sections_of champion.now))
        (bounds (data_of offer.now) node.now.place (places_of offer.now.menu.now (sections_of node.now.chosen)))) }
    ensures value { result
        ≡ first_pruning (data_of offer.now) node.now.place
        (places_of offer.now.menu.now (sections_of node.now.chosen))
        (places_of offer.now.menu.now (sections_of champion.now)) }
    ensures none { IfNone result (NonePrunes (data_of offer.now) node.now.place (places_of offer.now.menu.now (sections_of node.now.chosen)) (places_of offer.now.menu.now (sections_of champion.now))
        (bounds (data_of offer.now) node.now.place (places_of offer.now.menu.now (sections_of node.now.chosen)))) }
{
    let places = Places::of(offer.menu, &node.chosen);
    let places = places.as_slice();
    let picks = Picks { offer, places };
    let rests = rests_of(&picks);
    let chosen = Chosen {
        offer,
        places,
        rests,
    };
    let mut room = NO_PROSPECTS;
    let from = node.place.min(offer.menu.len());
    let start = collect(&chosen, from, &mut room);
    let base = Base::of(offer.menu.utility(&node.chosen));
    let list = &room[start..];
    let all = Prospects { list };
    let limit = limit_of(offer.menu, node, places, champion);
    let plain = plain_sum(&all);
    let mut tangents = Tangents::none();
    first_with(base, limit, rests, &all, plain, &mut tangents)
}

/// A bound below this number prunes the node: 1000 u, u being the champion's utility; or
/// 1000 (u + 1), where the champion has the first decided place on which it and the chosen ones
/// differ.
pub(crate) fn limit_of(menu: &Rows, node: &Node, chosen: &[u8], champion: &Bundle) -> i64
    requires { AllRated (wishes_of menu.now) (sections_of champion.now) }
    ensures { result
        ≡ limit_of (utility (wishes_of menu.now) (sections_of champion.now))
        (is_ahead node.now.place (places_of menu.now (sections_of champion.now)) chosen.now) }
{
    let places = Places::of(menu, champion);
    let most = i64::from(menu.utility(champion));
    if is_ahead(node.place, places.as_slice(), chosen) {
        1000 * (most + 1)
    } else {
        1000 * most
    }
}
