// Admission and release: each checks in document 01's order, and stores where nothing refuses.
ghost use Rattle.std.specs.Prelude.{◌≡◌, true, ℕ, length, get_or};
ghost use Rattle.area.specs.Formed.{well_formed};
ghost use Rattle.area.specs.FreeIn.{free_in};
ghost use Rattle.area.specs.Refusals.{numbered};
ghost use Rattle.rules.specs.Replies.{answer_of, path_after};
ghost use Rattle.rules.specs.Calls.{admission, booked, release, cleared};
ghost use Rattle.rules.specs.Meaning.{AdmissionMeans, ReleaseMeans};

use crate::checks::{check_number, check_request};
use crate::find_path::find_path;
use area::Refusal;
use network::limits::MOST_LINKS;
use network::{Grant, Request};
use station::{Station, layout, store};

// An admission on an area that was found well formed and has these free units: the caller has checked it, or has left it so.
pub(crate) fn admit_formed(
    area: &mut [u32],
    free: &[u32; MOST_LINKS],
    work: &mut [u32],
    path: &mut [u32],
    circuit: u32,
    r: Request,
) -> Result<Grant, Refusal>
    requires formed { well_formed area.old ≡ true }
    requires units { (i : ℕ) → get_or free.now i 0 ≡ free_in area.old i }
    ensures answer { numbered result ≡ answer_of (admission area.old (length work.old) (length path.old) circuit r) }
    ensures path { path.new ≡ path_after (admission area.old (length work.old) (length path.old) circuit r) path.old }
    ensures area { area.new ≡ booked area.old circuit r.terms.units (admission area.old (length work.old) (length path.old) circuit r) }
{
    let station = Station { area, free };
    check_request(&station, work.len(), path.len(), r)?;
    let j = check_number(&station, circuit)?;
    let grant = find_path(&station, work, path, r)?;
    let links = layout::part(path, 0, grant.links as usize);
    store::add(area, j, circuit, r.terms.units, links);
    Ok(grant)
}

// 5, 6, 7, 8, 11, 12, 9 and 10 in this order; else it answers as a quote does and adds the circuit. Work memory is open
// after.
// `means` says of this answer, this path buffer and this area what document 01 says: the first rule that applies refuses and
// changes nothing, a grant is a best path of its problem, and its circuit then stands at its place
// among the others.
pub fn admit(
    area: &mut [u32],
    work: &mut [u32],
    path: &mut [u32],
    circuit: u32,
    r: Request,
) -> Result<Grant, Refusal>
    ensures answer { numbered result ≡ answer_of (admission area.old (length work.old) (length path.old) circuit r) }
    ensures path { path.new ≡ path_after (admission area.old (length work.old) (length path.old) circuit r) path.old }
    ensures area { area.new ≡ booked area.old circuit r.terms.units (admission area.old (length work.old) (length path.old) circuit r) }
    ensures means { AdmissionMeans area.old (length work.old) path.old circuit r (numbered result) path.new area.new }
{
    let free: [u32; MOST_LINKS] = station::free_in(area)?;
    admit_formed(area, &free, work, path, circuit, r)
}

// 5 and 13 in this order; else the circuit with this number goes and the others remain.
// `means` says of this answer and this area what document 01 says: the first rule that applies refuses and changes nothing,
// and else the others are held and this one is not.
pub fn release(area: &mut [u32], number: u32) -> Result<(), Refusal>
    ensures answer { numbered result ≡ release area.old number }
    ensures area { area.new ≡ cleared area.old number (release area.old number) }
    ensures means { ReleaseMeans area.old number (numbered result) area.new }
{
    let free = station::free_in(area)?;
    let station = Station { area, free: &free };
    let j = station.place_of(number);
    if !station.holds(number, j) {
        return Err(Refusal::NotHeld);
    }
    store::remove(area, j);
    Ok(())
}
