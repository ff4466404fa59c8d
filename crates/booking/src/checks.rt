// The checks past that of the area, in document 01's order: those that a quote and an admission share, up to 8, and those of an
// admission's circuit number.
ghost use Rattle.std.specs.Prelude.{◌≡◌};
ghost use Rattle.area.specs.Refusals.{numbered};
ghost use Rattle.rules.specs.Calls.{request_checked, number_checked};

use crate::request::{number_in_range, request_fits};
use area::Refusal;
use network::Request;
use network::limits::{PATH_WORDS, WORK_WORDS};
use station::{Station, layout};

// The first of 6, 7 and 8 that applies. `work` and `path` are the lengths of work memory and path buffer.
pub fn check_request(
    station: &Station<'_>,
    work: usize,
    path: usize,
    r: Request,
) -> Result<(), Refusal>
    ensures { numbered result ≡ request_checked station.now.area.now work path r }
{
    if work < WORK_WORDS {
        return Err(Refusal::WorkShort);
    }
    if path < PATH_WORDS {
        return Err(Refusal::PathShort);
    }
    if !request_fits(station.nodes(), r) {
        return Err(Refusal::RequestRange);
    }
    Ok(())
}

// The first of 11 and 12 that applies to a circuit of this number, else its place.
pub fn check_number(station: &Station<'_>, number: u32) -> Result<usize, Refusal>
    ensures { numbered result ≡ number_checked station.now.area.now number }
{
    let j = station.place_of(number);
    if !number_in_range(number) || station.holds(number, j) {
        return Err(Refusal::CircuitNumber);
    }
    if layout::MOST_CIRCUITS <= station.held() {
        return Err(Refusal::CircuitsFull);
    }
    Ok(j)
}
