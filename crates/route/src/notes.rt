// What a walk back notes on its way: the nodes that it left, and at each of them the last link out of it.
ghost use Rattle.std.specs.Prelude.{◌≡◌, ◌<◌};
ghost use Rattle.network.specs.Limits.{most_links, most_nodes};
ghost use Rattle.network.specs.Cut.{no_notes, note_at};

use links::node_set::NodeSet;
use network::limits::MOST_NODES;
use std::marker::Model;

// The nodes left, and the link noted at each node.
#[derive(Drop)]
pub struct Notes {
    left: NodeSet,
    pub next: [u32; MOST_NODES as usize],
}

impl Model for Notes {
    ghost use Rattle.network.specs.Cut.{Notes};

    ghost Value = { Notes };

    ghost view = { λ n. record { left = n.left; next = n.next } };
}

impl Notes {
    // Before any link is noted.
    pub fn new() -> Self
        ensures { result ≡ no_notes }
    {
        Notes {
            left: NodeSet::new(),
            next: [0; MOST_NODES as usize],
        }
    }

    // Link `i`, which leaves node `v`, is noted there unless a later link of the walk left `v` already. The trace has both from
    // the problem's list of links.
    #[tactic(auto, unfolding(network::specs::Cut::noted))]
    pub fn note(&mut self, v: usize, i: usize)
        requires v_lt_most_nodes { v < most_nodes }
        requires i_lt_most_links { i < most_links }
        ensures { self.new ≡ note_at v i self.old }
    {
        if !self.left.contains(v) {
            self.next[v] = i as u32;
        }
        self.left = self.left.with(v);
    }
}
