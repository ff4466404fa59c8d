// Quote: the checks in document 01's order, then the search.
ghost use Rattle.std.specs.Prelude.{◌≡◌, length};
ghost use Rattle.area.specs.Refusals.{numbered};
ghost use Rattle.rules.specs.Replies.{answer_of, path_after};
ghost use Rattle.rules.specs.Calls.{quote};
ghost use Rattle.rules.specs.Meaning.{QuoteMeans};

use crate::checks::check_request;
use crate::find_path::find_path;
use area::Refusal;
use network::{Grant, Request};
use station::Station;

// 5, 6, 7, 8, 9 and 10 in this order; else the problem, delay, cost and number of links of a path, whose links stand in
// the first words of `path`. The area does not change. Work memory is open after.
// `means` says of this answer and this path buffer what document 01 says: the first rule that applies refuses, and a grant is
// a best path of its problem.
pub fn quote(area: &[u32], work: &mut [u32], path: &mut [u32], r: Request) -> Result<Grant, Refusal>
    ensures answer { numbered result ≡ answer_of (quote area.now (length work.old) (length path.old) r) }
    ensures path { path.new ≡ path_after (quote area.now (length work.old) (length path.old) r) path.old }
    ensures means { QuoteMeans area.now (length work.old) path.old r (numbered result) path.new }
{
    let free = station::free_in(area)?;
    let station = Station { area, free: &free };
    check_request(&station, work.len(), path.len(), r)?;
    find_path(&station, work, path, r)
}
