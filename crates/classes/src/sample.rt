// The sample table: document 01's six service classes, for the class program and for a station that has no classes of its own.
ghost use Rattle.std.specs.Prelude.{◌≡◌};
ghost use Rattle.rules.specs.SampleClasses.{sample};

use crate::table::ROW_WORDS;
use std::array;

const SAMPLE_ROWS: usize = 6;

// Card, PIN, tank, prices, service, pictures: each units, D, C and coefficient.
const ROWS: [[u32; ROW_WORDS]; SAMPLE_ROWS] = [
    [1, 400, 60, 8],
    [1, 250, 80, 8],
    [2, 2000, 40, 4],
    [2, 5000, 30, 2],
    [8, 800, 300, 6],
    [16, 3000, 600, 2],
];

// The words of the sample table.
pub const SAMPLE_WORDS: usize = ROW_WORDS * SAMPLE_ROWS;

// Its words, one row behind the other.
pub fn sample() -> [u32; SAMPLE_WORDS]
    ensures { result ≡ sample }
{
    array::from_fn(|i| ROWS[i / ROW_WORDS][i % ROW_WORDS])
}
