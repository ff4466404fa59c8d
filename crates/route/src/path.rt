// The noted links from s to t, written into the path buffer, with the path's own totals.
ghost use Rattle.std.specs.Prelude.{◌≡◌, ◌+◌, ◌≤◌, ◌<◌, length};
ghost use Rattle.network.specs.Limits.{most_path_links, path_words};
ghost use Rattle.search.specs.Forward.{OnWay, advanced, forwarded};
ghost use Rattle.route.specs.Described.{described};

use crate::net::Network;
use network::limits::MOST_NODES;
use search::PartialPath;

impl Network<'_> {
    // One link more, unless the path has come to t. The test of the note keeps any notes safe to read.
    #[tactic(auto, unfolding(search::specs::Forward::advanced, search::specs::Forward::path_on, network::specs::Words::net_of))]
    fn advance(
        &self,
        next: &[u32; MOST_NODES as usize],
        path: &mut [u32],
        t: usize,
        k: usize,
        w: PartialPath,
    ) -> PartialPath
        requires on_way { (path_words ≤ length path.old) × (k < most_path_links) × OnWay self.now.nodes k w }
        ensures is { (result, path.new) ≡ advanced (described self.now) next.now t (w, path.old) }
        ensures on { OnWay self.now.nodes (k + 1) result }
    {
        if w.node == t {
            return w;
        }
        let i = next[w.node] as usize;
        if self.links.count <= i {
            return w;
        }
        path[w.links] = i as u32;
        PartialPath {
            node: self.links.get(i).to,
            links: w.links + 1,
            delay: w.delay + self.delays[i],
            cost: w.cost + self.costs[i],
        }
    }

    // The path from s to t. `found` calls it with the notes of a trace, and requires the rest itself.
    #[tactic(auto, unfolding(network::specs::Words::net_of, search::specs::Forward::forwarded), using(network::proofs::Loops::counted))]
    pub(crate) fn forward(
        &self,
        next: &[u32; MOST_NODES as usize],
        path: &mut [u32],
        s: usize,
        t: usize,
    ) -> PartialPath
        requires room { (path_words ≤ length path.old) × (s < self.now.nodes) }
        ensures is { (result, path.new) ≡ forwarded (described self.now) next.now s t path.old }
        ensures on { OnWay self.now.nodes most_path_links result }
    {
        let mut w = PartialPath {
            node: s,
            links: 0,
            delay: 0,
            cost: 0,
        };
        for k in 0..self.nodes - 1 {
            w = self.advance(next, path, t, k, w);
        }
        w
    }
}
