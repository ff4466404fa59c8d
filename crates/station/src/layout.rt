// Document 01's layout of an area, each number under one name, which all other code cites: it is changed here and in `area`
// `Layout`, which has the same names for the definitions. Besides, a lent part of an area's words, and words put from a place
// on. The area is a lent slice of words, read and written by index.
ghost use Rattle.std.specs.Prelude.{◌≡◌, ◌+◌, ◌≤◌, length};
ghost use Rattle.std.proofs.lemmas.List.Edits.{sets};
ghost use Rattle.area.specs.Layout.{most_circuits, figures};
ghost use Rattle.area.specs.Station.{place, words_at};

use area::Layout;
use network::limits::{LINK_WORDS, MOST_LINKS};

// Words 0 to 2: n, m and h.
pub const NODES: usize = 0;

pub const LINKS: usize = 1;

pub const HELD: usize = 2;

// The words of an area, at least.
pub const AREA_WORDS: usize = 3491;

// Where the links begin, and the words of a full table.
pub const FIRST_LINK: usize = 3;

pub const TABLE_WORDS: usize = LINK_WORDS * MOST_LINKS;

// Where the circuits begin, the words of one (number, units, link count, path words), where among these its path words begin,
// and how many circuits may be held.
pub const FIRST_CIRCUIT: usize = 1283;

pub const CIRCUIT_WORDS: usize = 34;

pub const PATH_START: usize = 3;

pub const MOST_CIRCUITS: usize = 64;

// Where the hold times begin, one word for each node that an area may have.
pub const FIRST_HOLD: usize = 3459;

// A circuit's number.
pub const LEAST_NUMBER: u32 = 1;

pub const MOST_NUMBER: u32 = 65535;

// Every number above but the first three: the code's names for them and the definitions' names say the same. Nobody needs
// the answer: the function is there for its contract.
pub fn figures() -> Layout
    ensures { result ≡ figures }
{
    Layout {
        area_words: AREA_WORDS,
        first_link: FIRST_LINK,
        table_words: TABLE_WORDS,
        first_circuit: FIRST_CIRCUIT,
        circuit_words: CIRCUIT_WORDS,
        path_start: PATH_START,
        most_circuits: MOST_CIRCUITS,
        first_hold: FIRST_HOLD,
        least_number: LEAST_NUMBER,
        most_number: MOST_NUMBER,
    }
}

// Where circuit `j` begins. The callers count circuits, of which a checked area has no more than may be held.
pub fn place(j: usize) -> usize
    requires { j ≤ most_circuits }
    ensures { result ≡ place j }
{
    FIRST_CIRCUIT + CIRCUIT_WORDS * j
}

// `n` words from `at` on. The callers have checked the length.
pub fn part(words: &[u32], at: usize, n: usize) -> &[u32]
    requires { at + n ≤ length words.now }
    ensures { result.now ≡ words_at words.now at n }
{
    let end = at + n;
    &words[at..end]
}

// Puts `words` into the area from `at` on. Load has checked the length of the area, and an admission its circuit count. They are put
// one by one, as lent words may overlap for all that the compiler knows: `copy_from_slice` would need `memmove` of the C library,
// and the archive asks for `memcpy` and `memset` alone.
pub(crate) fn put(area: &mut [u32], at: usize, words: &[u32])
    requires { at + length words.now ≤ length area.old }
    ensures { area.new ≡ sets area.old at words.now }
{
    for i in 0..words.len() {
        area[at + i] = words[i];
    }
}
