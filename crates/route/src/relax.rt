// Lines 6 to 10: one link tried from its tail at one k.
ghost use Rattle.std.specs.Prelude.{◌≡◌, false, ◌+◌, ◌≤◌, ◌<◌, length};
ghost use Rattle.network.specs.Limits.{most_bound, most_links, most_weight};
ghost use Rattle.search.specs.ebf.Table.{number, improved, relaxed, offered, most_cells};
ghost use Rattle.search.specs.Solver.{hop, net_in, problem_of};
ghost use Rattle.search.specs.ebf.OnTable.{Bounded};
ghost use Rattle.search.specs.ebf.Relaxing.{Own};

use crate::table::cell;
use network::limits::WORK_WORDS;
use search::Reduced;

// Lines 8 to 10: link `i` of kept weight `kept` leads from cell `a` to cell `b`. Gives false only where the table is as it
// was. From ∞, which is bound + 1, nothing less than bound + 1 is offered, so that needs no test of its own.
#[tactic(auto, using(search::proofs::ebf::Steps::improved_stored, search::proofs::ebf::Steps::improved_kept))]
fn improve(
    work: &mut [u32; WORK_WORDS],
    a: usize,
    b: usize,
    kept: u32,
    bound: u32,
    i: usize,
) -> bool
    requires places { (a < most_cells) × (b < most_cells) × (i < most_links) }
    requires bounded { (number work.old a ≤ bound + 1) × (number work.old b ≤ bound + 1) }
    requires ranges { (kept ≤ most_weight) × (bound ≤ most_bound) }
    ensures is { work.new ≡ improved a b kept bound i work.old }
    ensures says { result ≡ false → work.old ≡ work.new }
{
    let d = work[2 * a] + kept;
    if d < work[2 * b] {
        work[2 * b] = d;
        work[2 * b + 1] = i as u32;
        return true;
    }
    false
}

// Whether another round is due: `again` says whether one was before this link, which has scaled weight `step`. A change
// in the column that the link was tried from may let that column's links offer more; later columns are yet to come.
fn due(stored: bool, step: usize, again: bool) -> bool
    ensures { result ≡ false → (step ≡ 0 → stored ≡ false) × (again ≡ false) }
{
    if !stored {
        return again;
    }
    if step == 0 {
        return true;
    }
    again
}

// Lines 6 and 7, and by `improve` lines 8 to 10: link `i` is tried from its tail at `k`. Gives false only where no other round
// is due for it, and none was before.
#[tactic(auto, using(search::proofs::ebf::Steps::hop_over, search::proofs::ebf::Steps::hop_within))]
fn relax(p: &Reduced<'_>, work: &mut [u32; WORK_WORDS], k: usize, i: usize, again: bool) -> bool
    requires bounded { Bounded p.now work.old }
    requires place { (k ≤ p.now.x) × (i < length p.now.hops.now) }
    ensures is { work.new ≡ relaxed (net_in p.now) (problem_of p.now) k i work.old }
    ensures says { result ≡ false → Own again (hop p.now i).step work.old work.new }
{
    let h = p.hops[i];
    let step = h.step as usize;
    if p.x - k < step {
        return again;
    }
    let from = cell(p, h.tail as usize, k);
    let to = cell(p, h.head as usize, k + step);
    let stored = improve(work, from, to, h.kept, p.bound, i);
    due(stored, step, again)
}

// Line 24, for a usable link; any other is passed over. Gives false only where no other round is due for it, and none was
// before. The rounds call it for each link at each `k`, and keep the table bounded as it requires.
#[tactic(auto, using(search::proofs::ebf::Steps::hop_unusable, search::proofs::ebf::Steps::hop_usable))]
pub fn offer(p: &Reduced<'_>, work: &mut [u32; WORK_WORDS], k: usize, i: usize, again: bool) -> bool
    requires bounded { Bounded p.now work.old }
    requires place { (k ≤ p.now.x) × (i < length p.now.hops.now) }
    ensures is { work.new ≡ offered (net_in p.now) (problem_of p.now) k i work.old }
    ensures says { result ≡ false → Own again (hop p.now i).step work.old work.new }
{
    if !p.hops[i].usable {
        return again;
    }
    relax(p, work, k, i, again)
}
