// The links of a reduced problem, their weights in the roles that the problem gives them. Formula 1 is applied once for each
// link and problem: the rounds divide nothing.
ghost use Rattle.std.specs.Prelude.{◌≡◌, ◌≤◌, ◌<◌};
ghost use Rattle.network.specs.Limits.{most_x};
ghost use Rattle.network.specs.Reduce.{TermsInRange};
ghost use Rattle.search.specs.Roles.{by_problem, problem_by};
ghost use Rattle.search.specs.Solver.{Reduces, Weighed};
ghost use Rattle.route.specs.Described.{described};

use crate::net::Network;
use links::scale::scale;
use network::limits::MOST_LINKS;
use network::{Reduction, Request};
use search::{Hop, Reduced};

// What problem one has, or what problem two has in its place.
fn by_problem(which: Reduction, one: u32, two: u32) -> u32
    ensures { result ≡ by_problem which one two }
{
    match which {
        Reduction::One => one,
        Reduction::Two => two,
    }
}

impl Network<'_> {
    // Link `i` as problem `which` has it.
    #[tactic(auto, unfolding(network::specs::Words::net_of, search::specs::Roles::problem_by))]
    fn hop(&self, r: Request, x: usize, which: Reduction, i: usize) -> Hop
        requires terms { TermsInRange r }
        requires x_le_most_x { x ≤ most_x }
        requires i_lt_count { i < self.now.links.count }
        ensures { Weighed (described self.now) (problem_by (described self.now) r x which) i result }
    {
        let link = self.links.get(i);
        let delay = self.delays[i];
        let cost = self.costs[i];
        let other = by_problem(which, cost, delay);
        let bound = by_problem(which, r.terms.cost_bound, r.terms.delay_bound);
        Hop {
            tail: link.from as u8,
            head: link.to as u8,
            usable: self.usable[i],
            kept: by_problem(which, delay, cost),
            step: scale(other, x as u32, bound),
        }
    }

    // Problem `which` of request `r` at `x`, its links listed in `hops`. The entries past the links keep what they hold, so
    // each link is written by its number.
    pub(crate) fn reduced<'a>(
        &self,
        r: Request,
        x: usize,
        which: Reduction,
        hops: &'a mut [Hop; MOST_LINKS],
    ) -> Reduced<'a>
        requires terms { TermsInRange r }
        requires x_le_most_x { x ≤ most_x }
        ensures { Reduces (described self.now) (problem_by (described self.now) r x which) result }
    {
        for i in 0..self.links.count {
            hops[i] = self.hop(r, x, which, i);
        }
        Reduced {
            nodes: self.nodes,
            x,
            bound: by_problem(which, r.terms.delay_bound, r.terms.cost_bound),
            hops: &hops[..self.links.count],
        }
    }
}
