// What a search is handed of a station beside the links and their flags, a number for each: its delay as the request sees it, and
// its cost. The entries past the links say nothing. They are written where the caller has them, so that nothing is copied.
ghost use Rattle.std.specs.Prelude.{◌≡◌, ℕ, ◌<◌, get_or};
ghost use Rattle.area.specs.Station.{nodes_in, links_in, table_in, cost_of};
ghost use Rattle.area.specs.Books.{hold_into, delay_to};

use crate::formed::Station;
use crate::layout;
use network::limits::{MOST_LINKS, MOST_NODES};

impl Station<'_> {
    // How long a message to `target` is held in node `v`: not at all where it arrives.
    #[tactic(auto, using(area::proofs::ReadCases::formed_long, area::proofs::ReadCases::formed_nodes, area::proofs::TableCases::hold_word))]
    fn hold_into(&self, target: usize, v: usize) -> u32
        requires { v < nodes_in self.now.area.now }
        ensures { result ≡ hold_into (table_in self.now.area.now) target v }
    {
        if v == target {
            0
        } else {
            self.area[layout::FIRST_HOLD + v]
        }
    }

    // The same for every node; the entries past the nodes say nothing.
    #[tactic(auto, using(area::proofs::ReadCases::formed_nodes))]
    fn holds_into(&self, target: usize) -> [u32; MOST_NODES as usize]
        ensures { (v : ℕ) → v < nodes_in self.now.area.now → get_or result v 0 ≡ hold_into (table_in self.now.area.now) target v }
    {
        let mut holds = [0; MOST_NODES as usize];
        for v in 0..self.nodes() {
            holds[v] = self.hold_into(target, v);
        }
        holds
    }

    // Writes the delays of the links for a request to `target`. A link goes by its number: its words and its delay stand apart.
    // Whether a node is the target is asked for each node and not for each link, where the processor could not foresee it.
    pub fn put_delays(&self, target: usize, delays: &mut [u32; MOST_LINKS])
        ensures { (i : ℕ) → i < links_in self.now.area.now → get_or delays.new i 0 ≡ delay_to (table_in self.now.area.now) target i }
    {
        let holds = self.holds_into(target);
        let links = self.links();
        for i in 0..links.count {
            let link = links.get(i);
            delays[i] = link.delay + holds[link.to];
        }
    }

    // Writes the costs of the links.
    pub fn put_costs(&self, costs: &mut [u32; MOST_LINKS])
        ensures { (i : ℕ) → i < links_in self.now.area.now → get_or costs.new i 0 ≡ cost_of (table_in self.now.area.now) i }
    {
        let links = self.links();
        for i in 0..links.count {
            costs[i] = links.get(i).cost;
        }
    }
}
