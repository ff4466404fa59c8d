// The bookings and the free units at the end of a run, printed.
ghost use Rattle.std.specs.Prelude.{◌+◌, ◌≤◌, length};
ghost use Rattle.area.specs.Layout.{circuit_words};

use crate::write;
use arrayvec::ArrayVec;
use network::limits::PATH_WORDS;
use station::layout::AREA_WORDS;
use station::{layout, reads};

// The circuit at word `at`: its number, its units and its path.
fn circuit(rt: &impl Print, area: &[u32], at: usize)
    requires { at + circuit_words ≤ length area.now }
{
    let mut text = ArrayVec::<u8, 364>::new();
    text::put_fields(&mut text, layout::part(area, at, 2));
    answer_lines::put_path(
        &mut text,
        layout::part(area, at + layout::PATH_START, PATH_WORDS),
        area[at + 2],
    );
    write(rt, b"circuit");
    write(rt, &text);
}

// The bookings, read from the area's words: no call tells a circuit's units and path. No clause bounds an area's
// count of circuits, which is cut at the number of places. A place is a number: the area is read by index.
pub(crate) fn circuits_held(rt: &impl Print, area: &[u32; AREA_WORDS]) {
    let held = layout::MOST_CIRCUITS.min(area[layout::HELD] as usize);
    for j in 0..held {
        circuit(rt, area, layout::place(j));
    }
}

// The line of a link: its number and its free units.
fn free(rt: &impl Print, area: &[u32], link: u32) {
    let mut text = ArrayVec::<u8, 34>::new();
    text::put_field(&mut text, link);
    answer_lines::put_answer(&mut text, reads::free_units(area, link));
    write(rt, b"free");
    write(rt, &text);
}

// Of each link of net A.
pub(crate) fn every_free(rt: &impl Print, area: &[u32]) {
    for link in 0..4 {
        free(rt, area, link);
    }
}
