// The fewest links from s to t, by layers of the node set: x is measured by it (section 2.3 of the paper).
ghost use Rattle.std.specs.Prelude.{◌≡◌, ◌<◌};
ghost use Rattle.search.specs.Distance.{spread_link, spread, distance_if_any};
ghost use Rattle.route.specs.Described.{described};

use crate::net::Network;
use links::node_set::NodeSet;

impl Network<'_> {
    // Link `i` adds its head to `more` where it is usable and its tail is in `set`.
    #[tactic(auto, unfolding(network::specs::Words::net_of))]
    fn spread_link(&self, set: NodeSet, i: usize, more: NodeSet) -> NodeSet
        requires { i < self.now.links.count }
        ensures { result ≡ spread_link (described self.now) set i more }
    {
        if !self.usable[i] {
            return more;
        }
        let link = self.links.get(i);
        if !set.contains(link.from) {
            return more;
        }
        more.with(link.to)
    }

    // The set with the heads of all usable links that leave it. A link goes by its number: its words and its flag stand apart.
    #[tactic(auto, unfolding(network::specs::Words::net_of, search::specs::Distance::spread), using(network::proofs::Loops::counted))]
    fn spread(&self, set: NodeSet) -> NodeSet
        ensures { result ≡ spread (described self.now) set }
    {
        let mut more = set;
        for i in 0..self.links.count {
            more = self.spread_link(set, i, more);
        }
        more
    }

    // The fewest links of a usable path from `s` to `t`, if there is one.
    pub(crate) fn distance(&self, s: usize, t: usize) -> Option<usize>
        requires { (s < self.now.nodes) × (t < self.now.nodes) }
        ensures { result ≡ distance_if_any (described self.now) s t }
    {
        let mut set = NodeSet::new().with(s);
        for k in 0..self.nodes {
            if set.contains(t) {
                return Some(k);
            }
            set = self.spread(set);
        }
        None
    }
}
