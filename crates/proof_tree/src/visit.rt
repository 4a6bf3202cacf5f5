// A node at which a tree is walked.
ghost use Rattle.std.specs.Prelude.{◌≤◌, length};
ghost use Rattle.bundle_rules.specs.Bundles.{sections_of};
ghost use Rattle.bundle_bounds.specs.{Laws.IsNode, Props.IsNode-prop};
ghost use Rattle.proof_tree.specs.Claims.{offer_in};

use crate::claim::Claim;
use bundle_bounds::Node;

/// A node of the search, with the claim whose tree is walked: at most all places are decided.
#[derive(Clone, Copy)]
pub(crate) struct Visit<'c, 'o> {
    pub(crate) claim: Claim<'c, 'o>,
    pub(crate) node: Node,
    ghost is_node: { IsNode (offer_in claim) node.place (sections_of node.chosen) } by { IsNode-prop (offer_in claim) node.place (sections_of node.chosen) },
    ghost within: { node.place ≤ length (offer_in claim).menu.places },
}
