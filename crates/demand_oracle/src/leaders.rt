// The best bundles that a search has found so far.
ghost use Rattle.std.specs.Prelude.{◌≤◌};

use crate::leading::Leading;
use crate::summed_node::SummedNode;

/// The champion of a search, and the nodes that lead it, the most preferred first: at most `most`
/// together. Only where they are so many a node is pruned by the champion.
#[derive(Clone, Copy)]
pub struct Leaders {
    pub(crate) champion: SummedNode,
    pub(crate) most: usize,
    pub(crate) leading: Leading,
    ghost within: { most ≤ 8 },
}

impl Leaders {
    ghost use Rattle.std.specs.Prelude.{◌≡◌, ◌+◌, ◌↔◌, [], IsTrue, length};
    ghost use Rattle.demand_oracle.specs.Champions.{nodes_of};

    /// The champion alone, where so many may be kept.
    pub(crate) fn begun(champion: SummedNode, most: usize) -> Leaders
        requires { most ≤ 8 }
        ensures none { nodes_of result.leading ≡ [] }
        ensures champion { result.champion ≡ champion }
        ensures most { result.most ≡ most }
    {
        Leaders {
            champion,
            most,
            leading: Leading::none(champion),
        }
    }

    /// Whether as many are kept as may be.
    #[inline(always)]
    pub(crate) fn is_full(&self) -> bool
        ensures { IsTrue result ↔ (self.now.most ≤ length (nodes_of self.now.leading) + 1) }
    {
        self.leading.count + 1 >= self.most
    }
}
