// A set of nodes, as those already on a path: one u32 with a bit per node, tested and set by shift. Callers hand in
// nodes of a checked table, and a table has at most 32.
ghost use Rattle.std.specs.Prelude.{◌≡◌, ◌<◌, ℕ};
ghost use Rattle.network.specs.Limits.{most_nodes};
ghost use Rattle.network.specs.NodeSet.{member, inserted};

use std::marker::Model;

#[derive(Clone, Copy, Debug, PartialEq, Eq)]
pub struct NodeSet {
    bits: u32,
}

// Clauses see the word.
impl Model for NodeSet {
    ghost Value = { ℕ };

    ghost view = { λ s. s.bits };

    ghost inverse = { λ n. record { bits = n } };
}

impl NodeSet {
    // The set of no node.
    pub fn new() -> Self
        ensures { result ≡ 0 }
    {
        NodeSet { bits: 0 }
    }

    // Whether node `v` is in the set.
    pub fn contains(self, v: usize) -> bool
        requires { v < most_nodes }
        ensures { result ≡ member self v }
    {
        (self.bits >> v) % 2 == 1
    }

    // The set with node `v` in it.
    pub fn with(self, v: usize) -> Self
        requires { v < most_nodes }
        ensures { result ≡ inserted self v }
    {
        NodeSet {
            bits: self.bits | (1 << v),
        }
    }
}
