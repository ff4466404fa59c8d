// One reduced problem: the table, and where it reaches t within both bounds the path, granted with its own totals.
// `problems` calls it, once or twice for each search.
ghost use Rattle.std.specs.Prelude.{◌≡◌, ◌≤◌, ◌<◌, length};
ghost use Rattle.network.specs.Limits.{path_words};
ghost use Rattle.search.specs.ebf.Solve.{solve};
ghost use Rattle.search.specs.Heuristic.{outcome_of};
ghost use Rattle.search.specs.Solver.{SameEdges, net_in, problem_of};
ghost use Rattle.search.specs.Forward.{grant_of};
ghost use Rattle.search.specs.Result.{search_answer_of, path_after};
ghost use Rattle.search.specs.ebf.Passed.{passed};
ghost use Rattle.route.specs.Described.{described};

use crate::ebf::ebf;
use crate::net::Network;
use crate::table::cell;
use crate::trace::trace;
use network::limits::WORK_WORDS;
use network::{Grant, NoRoute, Reduction};
use search::Reduced;

// The path that a finished table holds for t, granted with its own totals: sums of the links' delays and costs as they
// are, whichever of the two the problem scales.
fn found(
    net: &Network<'_>,
    p: &Reduced<'_>,
    work: &[u32; WORK_WORDS],
    path: &mut [u32],
    s: usize,
    t: usize,
    which: Reduction,
) -> Grant
    requires path_words_in_bounds { path_words ≤ length path.old }
    requires nodes { (s < net.now.nodes) × (t < p.now.nodes) }
    ensures answer { result ≡ grant_of which (passed (described net.now) p.now work.now s t path.old).0 }
    ensures path { path.new ≡ (passed (described net.now) p.now work.now s t path.old).1 }
{
    let notes = trace(p, work, s, t);
    let w = net.forward(&notes.next, path, s, t);
    Grant {
        problem: which,
        delay: w.delay,
        cost: w.cost,
        links: w.links as u32,
    }
}

// Problem `which` over the edges of the network. After lines 20 to 24 it has a solution where d[t, x] is within the bound,
// since d[t, x] covers every scaled weight up to x. Work memory is open after.
pub fn attempt(
    net: &Network<'_>,
    p: &Reduced<'_>,
    work: &mut [u32; WORK_WORDS],
    path: &mut [u32],
    s: usize,
    t: usize,
    which: Reduction,
) -> Result<Grant, NoRoute>
    requires edges { SameEdges (described net.now) (net_in p.now) }
    requires path_words_in_bounds { path_words ≤ length path.old }
    requires nodes { (s < p.now.nodes) × (t < p.now.nodes) }
    ensures answer { result ≡ search_answer_of (described net.now) (outcome_of which (solve (net_in p.now) (problem_of p.now) s t)) }
    ensures path { path.new ≡ path_after (outcome_of which (solve (net_in p.now) (problem_of p.now) s t)) path.old }
{
    ebf(p, work, s);
    let at = cell(p, t, p.x);
    if p.bound < work[2 * at] {
        return Err(NoRoute::NoSolution);
    }
    Ok(found(net, p, work, path, s, t, which))
}
