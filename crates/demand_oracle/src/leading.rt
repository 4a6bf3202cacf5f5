// Nodes in a row.
ghost use Rattle.std.specs.Prelude.{◌≡◌, ◌≤◌, length};

use crate::best::MOST_KEPT;
use crate::summed_node::SummedNode;

/// At most eight nodes, one behind another. What stands past them says nothing.
#[derive(Clone, Copy)]
pub struct Leading {
    pub(crate) nodes: [SummedNode; MOST_KEPT],
    pub(crate) count: usize,
    ghost whole: { length nodes ≡ 8 },
    ghost few: { count ≤ 8 },
}

impl Leading {
    ghost use Rattle.std.specs.Prelude.{◌<◌, ◌++◌, ◌∷◌, [], drop, take};
    ghost use Rattle.demand_oracle.specs.Champions.{nodes_of};

    /// No nodes, in a room that is filled with this one.
    pub(crate) fn none(filling: SummedNode) -> Leading
        ensures { nodes_of result ≡ [] }
    {
        Leading {
            nodes: [filling; MOST_KEPT],
            count: 0,
        }
    }

    /// The nodes.
    pub(crate) fn as_slice(&self) -> &[SummedNode]
        ensures { result.now ≡ nodes_of self.now }
    {
        &self.nodes[..self.count]
    }

    /// One more node behind them.
    pub(crate) fn push(&mut self, node: &SummedNode)
        requires { length (nodes_of self.old) < 8 }
        ensures { nodes_of self.new ≡ nodes_of self.old ++ node.now ∷ [] }
    {
        self.nodes[self.count] = *node;
        self.count += 1;
    }

    /// Puts a node behind so many of them, and each later one a place further; the last one falls
    /// out.
    pub(crate) fn put(&mut self, at: usize, node: &SummedNode) -> SummedNode
        requires { at ≤ length (nodes_of self.old) }
        ensures { nodes_of self.new ++ result ∷ []
            ≡ take at (nodes_of self.old) ++ node.now ∷ drop at (nodes_of self.old) }
    {
        let mut moved = *node;
        'later: for place in at..self.count {
            let next = self.nodes[place];
            self.nodes[place] = moved;
            moved = next;
        }
        moved
    }
}
