// The way back from (t, x) by the links kept in the table; at each node the last link out of it is noted, which
// cuts the loops that links of no weight may leave.
ghost use Rattle.std.specs.Prelude.{◌≡◌, ◌<◌};
ghost use Rattle.network.specs.Limits.{most_nodes};
ghost use Rattle.search.specs.ebf.Table.{cell, link_at};
ghost use Rattle.search.specs.ebf.Trace.{step_back, traced};
ghost use Rattle.search.specs.Solver.{net_in, problem_of};
ghost use Rattle.search.specs.ebf.OnTable.{OnTable};

use crate::notes::Notes;
use crate::table::{cell, cells};
use network::limits::WORK_WORDS;
use search::{Reduced, TracePlace};

// The link kept where the trace stands.
fn kept_link(p: &Reduced<'_>, work: &[u32; WORK_WORDS], w: TracePlace) -> usize
    requires on_table { OnTable p.now w }
    ensures { result ≡ link_at work.now (cell p.now.x w.node w.column) }
{
    let at = cell(p, w.node, w.column);
    work[2 * at + 1] as usize
}

// One link back, unless the trace has arrived. The two other tests keep any memory safe to read; on a table of
// this search neither ever holds.
#[tactic(auto, using(search::proofs::ebf::Trace::step_home, search::proofs::ebf::Turn::stays_unlisted, search::proofs::ebf::Turn::stays_spent, search::proofs::ebf::Turn::goes_back))]
fn step_back(
    p: &Reduced<'_>,
    work: &[u32; WORK_WORDS],
    s: usize,
    w: TracePlace,
    notes: &mut Notes,
) -> TracePlace
    requires on_table { OnTable p.now w }
    ensures is { (result, notes.new) ≡ step_back (net_in p.now) (problem_of p.now) work.now s (w, notes.old) }
    ensures stays { OnTable p.now result }
{
    if w.node == s {
        return w;
    }
    let i = kept_link(p, work, w);
    if p.hops.len() <= i {
        return w;
    }
    let h = p.hops[i];
    let step = h.step as usize;
    if w.column < step {
        return w;
    }
    let tail = h.tail as usize;
    notes.note(tail, i);
    TracePlace {
        node: tail,
        column: w.column - step,
    }
}

// The notes of the trace from (t, x) back to s. `found` calls it on a finished table, and requires the rest itself.
pub fn trace(p: &Reduced<'_>, work: &[u32; WORK_WORDS], s: usize, t: usize) -> Notes
    requires t_lt_most_nodes { t < most_nodes }
    ensures { result ≡ (traced (net_in p.now) (problem_of p.now) work.now s t).1 }
{
    let mut notes = Notes::new();
    let mut w = TracePlace {
        node: t,
        column: p.x,
    };
    for _ in 0..cells(p) {
        if w.node == s {
            return notes;
        }
        w = step_back(p, work, s, w, &mut notes);
    }
    notes
}
