// Section 2.3 of the paper: problem one, and only where it has no solution problem two, with the weights exchanged.
ghost use Rattle.std.specs.Prelude.{◌≡◌, ◌≤◌};
ghost use Rattle.network.specs.Limits.{most_x};
ghost use Rattle.search.specs.Heuristic.{tried};
ghost use Rattle.search.specs.Result.{Ready, search_answer_of, path_after};
ghost use Rattle.search.specs.Roles.{outcome_by};
ghost use Rattle.route.specs.Described.{described};

use crate::attempt::attempt;
use crate::net::Network;
use network::limits::{MOST_LINKS, WORK_WORDS};
use network::{Grant, NoRoute, Reduction, Request};
use search::Hop;

// The answer of problem `which` of request `r` at `x`. Its links are listed in `hops`, whatever stands there before. From here on
// work memory has its length in its type: `ready` says that the words are there, so no contract below has to.
fn reduced_problem(
    net: &Network<'_>,
    work: &mut [u32],
    path: &mut [u32],
    r: Request,
    x: usize,
    which: Reduction,
    hops: &mut [Hop; MOST_LINKS],
) -> Result<Grant, NoRoute>
    requires ready { Ready net.now.nodes work.old path.old r }
    requires x_le_most_x { x ≤ most_x }
    ensures answer { result ≡ search_answer_of (described net.now) (outcome_by (described net.now) r x which) }
    ensures path { path.new ≡ path_after (outcome_by (described net.now) r x which) path.old }
{
    let memory = work.first_chunk_mut::<WORK_WORDS>().unwrap();
    let p = net.reduced(r, x, which, hops);
    let s = r.source as usize;
    let t = r.target as usize;
    attempt(net, &p, memory, path, s, t, which)
}

// The answer for request `r` at `x`: the second problem is tried only where the first has no solution. `search` calls it
// with x in its range, and requires the rest itself.
pub fn both_problems(
    net: &Network<'_>,
    work: &mut [u32],
    path: &mut [u32],
    r: Request,
    x: usize,
) -> Result<Grant, NoRoute>
    requires ready { Ready net.now.nodes work.old path.old r }
    requires x_le_most_x { x ≤ most_x }
    ensures answer { result ≡ search_answer_of (described net.now) (tried (described net.now) r x) }
    ensures path { path.new ≡ path_after (tried (described net.now) r x) path.old }
{
    let mut hops = [Hop::default(); MOST_LINKS];
    let first = reduced_problem(net, work, path, r, x, Reduction::One, &mut hops);
    let Err(NoRoute::NoSolution) = first else {
        return first;
    };
    reduced_problem(net, work, path, r, x, Reduction::Two, &mut hops)
}
