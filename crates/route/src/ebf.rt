// Lines 20 to 24 in the paper's order: initialise, then rounds, k rising, links in table order. The rounds end with one in which no link of
// scaled weight 0 changed a number: the rest of them would change nothing, since every link is then settled. The table is work
// memory, which holds any words before, so that its numbers are bounded stands in clauses.
ghost use Rattle.std.specs.Prelude.{◌≡◌, false, ◌≤◌, ◌<◌};
ghost use Rattle.search.specs.ebf.Table.{column, round, rounds, ebf};
ghost use Rattle.search.specs.ebf.Settled.{SettledColumn};
ghost use Rattle.search.specs.Solver.{net_in, problem_of};
ghost use Rattle.search.specs.ebf.OnTable.{Bounded};
ghost use Rattle.search.specs.ebf.AsPaper.{LeftByPaper};

use crate::relax::offer;
use crate::table::initialise;
use network::limits::WORK_WORDS;
use search::Reduced;

// Lines 23 and 24 at `k`. Gives false only where column k is settled, and it was handed false. A link goes by its number, which
// the table keeps.
#[tactic(auto, using(network::proofs::Loops::counted, search::proofs::ebf::Steps::links_bounded, search::proofs::ebf::Steps::settled_on))]
fn relax_links(p: &Reduced<'_>, work: &mut [u32; WORK_WORDS], k: usize, again: bool) -> bool
    requires bounded { Bounded p.now work.old }
    requires k_le_x { k ≤ p.now.x }
    ensures is { work.new ≡ column (net_in p.now) (problem_of p.now) k work.old }
    ensures says { result ≡ false → SettledColumn (net_in p.now) (problem_of p.now) k work.new × (again ≡ false) }
{
    let mut due = again;
    for i in 0..p.hops.len() {
        due = offer(p, work, k, i, due);
    }
    due
}

// Lines 22 to 24: k rises. Gives false only where another round would change nothing.
#[tactic(auto, using(network::proofs::Loops::counted, search::proofs::ebf::Steps::columns_bounded))]
fn round(p: &Reduced<'_>, work: &mut [u32; WORK_WORDS]) -> bool
    requires bounded { Bounded p.now work.old }
    ensures is { work.new ≡ round (net_in p.now) (problem_of p.now) work.old }
    ensures says { result ≡ false → round (net_in p.now) (problem_of p.now) work.new ≡ work.new }
{
    let mut due = false;
    for k in 0..p.x + 1 {
        due = relax_links(p, work, k, due);
    }
    due
}

// Lines 21 to 24, on a table that `initialise` has bounded.
#[tactic(auto, using(search::proofs::ebf::Steps::turned_bounded, search::proofs::ebf::Steps::turned_settled))]
fn rounds(p: &Reduced<'_>, work: &mut [u32; WORK_WORDS])
    requires bounded { Bounded p.now work.old }
    ensures { work.new ≡ rounds (net_in p.now) (problem_of p.now) work.old }
{
    for _ in 0..p.nodes - 1 {
        if !round(p, work) {
            return;
        }
    }
}

// Lines 20 to 24. `attempt` calls it, and requires that s is a node. The table that it leaves is the paper's: each entry that
// those lines leave within the kept bound has their weight and their link, and no other entry is within it.
#[tactic(auto, unfolding(search::specs::ebf::Table::ebf), using(search::proofs::ebf::Outcomes::table_bounded))]
pub fn ebf(p: &Reduced<'_>, work: &mut [u32; WORK_WORDS], s: usize)
    requires s_lt_nodes { s < p.now.nodes }
    ensures is { work.new ≡ ebf (net_in p.now) (problem_of p.now) s work.old }
    ensures paper { LeftByPaper (net_in p.now) (problem_of p.now) s work.new }
{
    initialise(p, work, s);
    rounds(p, work);
}
