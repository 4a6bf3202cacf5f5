// The canonical sign of a node.
ghost use Rattle.std.specs.Prelude.{◌≡◌, ◌↔◌, ℕ, List, Some, IsTrue, IfSome, IfNone, length};
ghost use Rattle.bundle_rules.specs.{Bundles.sections_of, Menus.IsMenu};
ghost use Rattle.bundle_bounds.specs.{Offers.OfferData, Opens.is_open};
ghost use Rattle.proof_tree.specs.{Claims.offer_in, Claims.champion_in, Trees.IsSign, Trees.GoesOn};
ghost use Rattle.proof_tree.specs.Visits.{HasNoSignAt, IsFirstPruningAt, IsShutAt, IsSignAt, IsStemThere, NonePrunesAt};

use crate::visit::Visit;
use crate::walk::PLACES;
use crate::ways::is_on_way;
use bundle_bounds::{Leaf, Node, Stem, is_open_in};

/// What stands at a node of a tree, the first of these that fits.
#[derive(Clone, Copy, Debug, PartialEq, Eq)]
pub enum Sign {
    /// All places are decided, and the chosen ones are the champion's: `*`.
    Champion,
    /// The required place is undecided and not open: `x`, of forced trees alone.
    Shut,
    /// A bound prunes the node: `n`, or `b`, `c`, `m` with a place.
    Pruned(Leaf),
    /// The next place is the required one: `!`, of forced trees alone.
    Forced,
    /// The next place is open: `+`.
    Open,
    /// The next place is not open: `-`.
    Passed,
}

// Whether all places are decided, and the chosen sections are the champion.
fn is_end(visit: &Visit) -> bool
    ensures { IsTrue result
        ↔ ((visit.now.node.place ≡ length (offer_in visit.now.claim).menu.places)
        × (sections_of visit.now.node.chosen ≡ champion_in visit.now.claim)) }
{
    let claim = &visit.claim;
    visit.node.place >= claim.offer.menu.len() && visit.node.chosen == *claim.champion
}

// Whether the required place is undecided and not open.
#[inline(always)]
fn is_shut(visit: &Visit) -> bool
    ensures { IsTrue result ↔ IsShutAt visit.now }
{
    let offer = visit.claim.offer;
    match visit.claim.required {
        Some(place) => {
            if place < visit.node.place {
                return false;
            }
            !is_open_in(offer, &visit.node, place)
        }
        None => false,
    }
}

// The sign of a node that goes on, by whether its next place is open.
fn next_sign(required: Option<u8>, node: &Node, is_next_open: bool) -> Sign
    ensures { (offer : OfferData) (champion places : List ℕ)
        → is_next_open ≡ is_open offer places node.now.place
        → GoesOn offer required champion node.now.place places
        → IsSign offer required champion node.now.place places result }
{
    if is_place(required, node.place) {
        return Sign::Forced;
    }
    if is_next_open {
        Sign::Open
    } else {
        Sign::Passed
    }
}

// Whether the required place is this one.
fn is_place(required: Option<u8>, place: u8) -> bool
    ensures { IsTrue result ↔ (required ≡ Some place) }
{
    match required {
        Some(other) => other == place,
        None => false,
    }
}

// The first bound that prunes the node. None does on the champion's way: each bound is at least what
// the champion itself is worth.
#[inline(always)]
fn pruning_at(visit: &Visit, stem: &mut Stem) -> Option<Leaf>
    requires stem { IsStemThere visit.now stem.old }
    ensures stem { IsStemThere visit.now stem.new }
    ensures first { IfSome result (IsFirstPruningAt visit.now) }
    ensures none { IfNone result (NonePrunesAt visit.now) }
{
    let claim = &visit.claim;
    prove!(claim.offer.menu.len() <= PLACES);
    if is_on_way(visit) {
        return None;
    }
    stem.pruning(claim.offer, claim.champion, &visit.node)
}

/// The canonical sign of a node, or `None` where it has none: all places are decided, the chosen
/// sections are not the champion, and no bound prunes it. The stem is that of the node, and keeps
/// what is computed.
#[inline(always)]
pub(crate) fn sign_at(visit: &Visit, stem: &mut Stem) -> Option<Sign>
    requires stem { IsStemThere visit.now stem.old }
    ensures stem { IsStemThere visit.now stem.new }
    ensures menu { IsMenu (offer_in visit.now.claim).menu }
    ensures some { IfSome result (IsSignAt visit.now) }
    ensures none { IfNone result (HasNoSignAt visit.now) }
{
    let claim = &visit.claim;
    prove!(claim.offer.menu.len() <= PLACES);
    if is_end(visit) {
        return Some(Sign::Champion);
    }
    if is_shut(visit) {
        return Some(Sign::Shut);
    }
    let pruning = pruning_at(visit, stem);
    if let Some(leaf) = pruning {
        return Some(Sign::Pruned(leaf));
    }
    if visit.node.place >= claim.offer.menu.len() {
        return None;
    }
    let is_next_open = stem.is_next_open(claim.offer, claim.champion, &visit.node);
    Some(next_sign(claim.required, &visit.node, is_next_open))
}
