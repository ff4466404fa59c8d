// The route search of document 01, the lower crate: a path within a delay bound and a cost bound by the extended
// Bellman-Ford search, problem one and else problem two, as in section 2.3 of the paper.
//
// A search goes through the modules in this order: `distance`, `problems`, and for each problem `weights`, then `attempt`
// with `ebf` (lines 20 to 24) over `table` (lines 1 to 5) and `relax` (lines 6 to 10), `trace` with `notes`, and `path`.
//
// Only `search` can be called from outside. What the functions below it require follows from what `search` requires,
// and each caller shows it; what `search` requires, the upper crate's calls have checked before they search.
#![tactic(auto)]

ghost use Rattle.std.specs.Prelude.{◌≡◌};
ghost use Rattle.search.specs.Result.{Ready, outcome, search_answer_of, path_after};
ghost use Rattle.route.specs.Described.{described};

mod attempt;
mod distance;
mod ebf;
mod net;
mod notes;
mod path;
mod problems;
mod relax;
mod table;
mod trace;
mod weights;

pub use crate::net::Network;
use crate::problems::both_problems;
use network::{Grant, NoRoute, Request};

// Searches the network for a path for request `r`. A granted path stands in the first words of `path`. Work memory may
// hold anything before, and is open after. The `requires` are the ranges and lengths that the upper crate has checked
// before it searches.
pub fn search(
    net: &Network<'_>,
    work: &mut [u32],
    path: &mut [u32],
    r: Request,
) -> Result<Grant, NoRoute>
    requires { Ready net.now.nodes work.old path.old r }
    ensures answer { result ≡ search_answer_of (described net.now) (outcome (described net.now) r) }
    ensures path { path.new ≡ path_after (outcome (described net.now) r) path.old }
{
    let s = r.source as usize;
    let t = r.target as usize;
    let Some(far) = net.distance(s, t) else {
        return Err(NoRoute::NoPath);
    };
    let x = r.terms.coefficient as usize * far;
    both_problems(net, work, path, r, x)
}
