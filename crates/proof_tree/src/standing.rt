// The node with the next place, and its stem.
ghost use Rattle.std.specs.Prelude.{◌≡◌, ◌≢◌, ◌<◌, ◌+◌, ◌++◌, ◌∷◌, [], ℕ, true, length, slice_index_or};
ghost use Rattle.bundle_rules.specs.{Bundles.sections_of, Menus.section_at};
ghost use Rattle.bundle_bounds.specs.{Opens.is_open, declared.stems.Stem.Stem};
ghost use Rattle.proof_tree.specs.{Claims.offer_in, Claims.champion_in, Standing.IsStemAt};
ghost use Rattle.proof_tree.specs.Visits.{chosen_at, HasStemAt};

use crate::visit::Visit;
use bundle_bounds::{Node, Stem};
use market_units::MAX_COURSES;

/// The node with the section of the next place, which is open. Its stem is written behind that of
/// the node itself, which stands at this index.
#[inline(always)]
pub(crate) fn with_next(visit: &Visit, stems: &mut [Stem], at: usize) -> Node
    requires at { at + 1 < length stems.old }
    requires stem { HasStemAt visit.now stems.old at }
    requires left { visit.now.node.place < length (offer_in visit.now.claim).menu.places }
    requires open { is_open (offer_in visit.now.claim) (chosen_at visit.now) visit.now.node.place
        ≡ true }
    ensures room { length (sections_of visit.now.node.chosen) < MAX_COURSES }
    ensures place { result.place ≡ visit.now.node.place + 1 }
    ensures chosen { sections_of result.chosen
        ≡ sections_of visit.now.node.chosen
        ++ section_at (offer_in visit.now.claim).menu.places visit.now.node.place ∷ [] }
    ensures stem { IsStemAt (offer_in visit.now.claim) (champion_in visit.now.claim) stems.new
        (at + 1) (visit.now.node.place + 1)
        (sections_of visit.now.node.chosen
        ++ section_at (offer_in visit.now.claim).menu.places visit.now.node.place ∷ []) }
    ensures others { (i : ℕ) (d : Stem) → i ≢ at + 1
        → slice_index_or stems.new i d ≡ slice_index_or stems.old i d }
{
    let node = visit.node;
    let claim = &visit.claim;
    let menu = claim.offer.menu;
    prove!(node.place < menu.len());
    let (front, back) = stems.split_at_mut(at + 1);
    front[at].take(claim.offer, claim.champion, &visit.node, &mut back[0]);
    let rated = menu.rated(node.place);
    Node {
        place: node.place + 1,
        chosen: node.chosen.with(rated.section),
    }
}
