// The stores of an admission and of a release: a circuit put at its place, and one taken out. An area that is written is a
// lent slice, as document 01 has it, so its length stands in a clause of each.
ghost use Rattle.std.specs.Prelude.{◌≡◌, ◌+◌, ◌-◌, ◌≤◌, ◌<◌, length, get_or};
ghost use Rattle.network.specs.Limits.{most_path_links};
ghost use Rattle.area.specs.Layout.{area_words, circuit_words, most_circuits};
ghost use Rattle.std.proofs.lemmas.List.Edits.{sets};
ghost use Rattle.area.specs.Moves.{words_of, opened, added, closed, removed};

use crate::layout;

// Each word from `at` to before `end` goes to where a circuit's words after it stand.
#[tactic(auto, using(crate::proofs::Opened::opened_copy))]
fn open(area: &mut [u32], at: usize, end: usize)
    requires circuit_words_in_bounds { end + circuit_words ≤ length area.old }
    requires at_le_end { at ≤ end }
    ensures { area.new ≡ opened area.old at (end - at) }
{
    area.copy_within(at..end, at + layout::CIRCUIT_WORDS);
}

// Writes a circuit's words from `at` on: its number, units, link count and path, and 0 in each path word that is left.
fn write_circuit(area: &mut [u32], at: usize, number: u32, units: u32, path: &[u32])
    requires circuit_words_in_bounds { at + circuit_words ≤ length area.old }
    requires path_len_bound { length path.now ≤ most_path_links }
    ensures { area.new ≡ sets area.old at (words_of (record { number = number; units = units; path = path.now })) }
{
    let start = at + layout::PATH_START;
    let end = start + path.len();
    area[at] = number;
    area[at + 1] = units;
    area[at + 2] = path.len() as u32;
    layout::put(area, start, path);
    area[end..at + layout::CIRCUIT_WORDS].fill(0);
}

// Puts a circuit at place `j`, and those from there on one place further on. An admission has checked the area and that one
// more may be held, and a granted path has no more links than a circuit holds.
pub fn add(area: &mut [u32], j: usize, number: u32, units: u32, path: &[u32])
    requires area_words_in_bounds { area_words ≤ length area.old }
    requires area_bound { get_or area.old 2 0 < most_circuits }
    requires j_bound { j ≤ get_or area.old 2 0 }
    requires path_len_bound { length path.now ≤ most_path_links }
    ensures { area.new ≡ added area.old j (record { number = number; units = units; path = path.now }) }
{
    let h = area[layout::HELD];
    let at = layout::place(j);
    open(area, at, layout::place(h as usize));
    write_circuit(area, at, number, units, path);
    area[layout::HELD] = h + 1;
}

// Each word from `at` to before `end` becomes the word that stands a circuit's words after it.
#[tactic(auto, using(crate::proofs::Closed::closed_copy))]
fn close(area: &mut [u32], at: usize, end: usize)
    requires circuit_words_in_bounds { end + circuit_words ≤ length area.old }
    requires at_le_end { at ≤ end }
    ensures { area.new ≡ closed area.old at (end - at) }
{
    area.copy_within(at + layout::CIRCUIT_WORDS..end + layout::CIRCUIT_WORDS, at);
}

// Takes circuit `j` out: those behind it close the gap. A release has checked the area and found the circuit.
pub fn remove(area: &mut [u32], j: usize)
    requires area_words_in_bounds { area_words ≤ length area.old }
    requires area_bound { get_or area.old 2 0 ≤ most_circuits }
    requires j_bound { j < get_or area.old 2 0 }
    ensures { area.new ≡ removed area.old j }
{
    let h = area[layout::HELD];
    let at = layout::place(j);
    let end = layout::place(h as usize - 1);
    close(area, at, end);
    area[layout::HELD] = h - 1;
}
