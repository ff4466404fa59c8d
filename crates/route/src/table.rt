// The table d[v, k] in work memory: cell v * (x + 1) + k has its number at the word twice its place, and the link
// by which v was reached at the next word.
ghost use Rattle.std.specs.Prelude.{◌≡◌, ◌≤◌, ◌<◌};
ghost use Rattle.network.specs.Limits.{most_nodes};
ghost use Rattle.search.specs.ebf.Table.{cell, cells, filled, infinity, initialised, most_cells, started};
ghost use Rattle.search.specs.Solver.{net_in, problem_of};

use network::limits::{MOST_LINKS, WORK_WORDS};
use search::Reduced;

// What stands for NIL: the links have lesser numbers.
const NO_LINK: u32 = MOST_LINKS as u32;

// The cell of d[v, k]. The callers have v in its range and k at most x.
#[tactic(auto, unfolding(search::specs::ebf::Table::cell))]
pub fn cell(p: &Reduced<'_>, v: usize, k: usize) -> usize
    requires v_lt_most_nodes { v < most_nodes }
    requires k_le_x { k ≤ p.now.x }
    ensures is { result ≡ cell p.now.x v k }
    ensures below { result < most_cells }
{
    v * (p.x + 1) + k
}

// How many cells the table has.
#[tactic(auto, unfolding(search::specs::ebf::Table::cells))]
pub fn cells(p: &Reduced<'_>) -> usize
    ensures is { result ≡ cells p.now.nodes p.now.x }
    ensures below { result ≤ most_cells }
{
    p.nodes * (p.x + 1)
}

// Lines 1 to 3. The cells are those of each node and each i from 0 to x.
#[tactic(auto, unfolding(search::specs::ebf::Table::filled, search::specs::Solver::net_in, search::specs::Solver::problem_of), using(network::proofs::Loops::counted))]
fn clear(p: &Reduced<'_>, work: &mut [u32; WORK_WORDS])
    ensures { work.new ≡ filled (cells p.now.nodes p.now.x) (infinity (problem_of p.now)) work.old }
{
    let far = p.bound + 1;
    for c in 0..cells(p) {
        work[2 * c] = far;
        work[2 * c + 1] = NO_LINK;
    }
}

// Lines 4 and 5. The cells of a node stand in the order of i.
#[tactic(auto, unfolding(search::specs::Solver::problem_of), using(network::proofs::Loops::counted, search::proofs::ebf::Rows::row_fits_lem, search::proofs::ebf::Rows::row_cell))]
fn start(p: &Reduced<'_>, work: &mut [u32; WORK_WORDS], s: usize)
    requires s_lt_most_nodes { s < most_nodes }
    ensures { work.new ≡ started (problem_of p.now) s work.old }
{
    let first = cell(p, s, 0);
    for i in 0..p.x + 1 {
        work[2 * (first + i)] = 0;
    }
}

// Lines 1 to 5, with bound + 1 for ∞ and NO_LINK for NIL. `ebf` calls it, with a node for `s`. It stands by itself in the
// machine code, which leaves the rounds behind it more registers (docs/performance.md).
#[inline(never)]
#[tactic(auto, unfolding(search::specs::ebf::Table::initialised, search::specs::Solver::net_in, search::specs::Solver::problem_of))]
pub fn initialise(p: &Reduced<'_>, work: &mut [u32; WORK_WORDS], s: usize)
    requires s_lt_most_nodes { s < most_nodes }
    ensures { work.new ≡ initialised (net_in p.now) (problem_of p.now) s work.old }
{
    clear(p, work);
    start(p, work, s);
}
