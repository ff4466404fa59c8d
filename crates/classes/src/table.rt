// The words of a class table, four a row: units, D, C and coefficient.
ghost use Rattle.std.specs.Prelude.{◌≡◌, ◌<◌};
ghost use Rattle.rules.specs.ClassTable.{rows_in, row_at, row_fits, rows_fit};

use links::terms::terms_fit;
use network::Terms;

// The words of a row, the most rows, and the words of a full table: the names of `rules` `ClassTable`.
pub const ROW_WORDS: usize = 4;

pub const MOST_ROWS: usize = 64;

pub const CLASS_WORDS: usize = ROW_WORDS * MOST_ROWS;

// Row `k`. The callers have counted the rows.
pub(crate) fn row(rows: &[u32], k: usize) -> Terms
    requires { k < rows_in rows.now }
    ensures { result ≡ row_at rows.now k }
{
    let at = ROW_WORDS * k;
    Terms {
        units: rows[at],
        delay_bound: rows[at + 1],
        cost_bound: rows[at + 2],
        coefficient: rows[at + 3],
    }
}

// Whether the numbers of row `k` are in a request's ranges. `rows_fit` counts the rows.
fn row_fits(rows: &[u32], k: usize) -> bool
    requires { k < rows_in rows.now }
    ensures { result ≡ row_fits (row_at rows.now k) }
{
    terms_fit(row(rows, k))
}

// Whether those of every row are.
#[tactic(auto, unfolding(rules::specs::ClassTable::rows_fit))]
pub(crate) fn rows_fit(rows: &[u32]) -> bool
    ensures { result ≡ rows_fit rows.now }
{
    (0..rows.len() / ROW_WORDS).all(|k| row_fits(rows, k))
}
