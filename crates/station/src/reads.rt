// The calls that only read the area: the listing of circuit numbers, and a link's free units.
ghost use Rattle.std.specs.Prelude.{◌≡◌, ◌++◌, ◌≤◌, length, drop};
ghost use Rattle.network.specs.Lists.{from};
ghost use Rattle.area.specs.Held.{number_at};
ghost use Rattle.area.specs.Refusals.{numbered};
ghost use Rattle.area.specs.Reads.{list_answer, listed, ListMeans, free_answer};

use crate::formed::{Station, free_in};
use crate::places::Places;
use area::Refusal;

// The numbers of the circuits at these places. One index goes over both: a place goes by its number.
fn write_numbers(places: &Places<'_>, numbers: &mut [u32])
    requires { places.now.count ≤ length numbers.old }
    ensures { numbers.new ≡ from (number_at places.now.area.now) 0 places.now.count ++ drop places.now.count numbers.old }
{
    for j in 0..places.count {
        numbers[j] = places.number(j);
    }
}

// 5 and 14 in this order; else the numbers of the held circuits, rising, and how many they are. The words past them keep
// theirs.
// `means` says of this answer and this buffer what document 01 says: the first rule that applies refuses, and the numbers are
// the held ones and no other.
pub fn list(area: &[u32], numbers: &mut [u32]) -> Result<u32, Refusal>
    ensures answer { numbered result ≡ list_answer area.now (length numbers.old) }
    ensures numbers { numbers.new ≡ listed area.now numbers.old }
    ensures means { ListMeans area.now numbers.old (numbered result) numbers.new }
{
    let free = free_in(area)?;
    let station = Station { area, free: &free };
    let places = station.places();
    if numbers.len() < places.count {
        return Err(Refusal::NumbersShort);
    }
    write_numbers(&places, numbers);
    Ok(places.count as u32)
}

// 5 and 15 in this order; else the link's free units.
pub fn free_units(area: &[u32], link: u32) -> Result<u32, Refusal>
    ensures { numbered result ≡ free_answer area.now link }
{
    let free = free_in(area)?;
    let station = Station { area, free: &free };
    let i = link as usize;
    if station.links().count <= i {
        return Err(Refusal::NoSuchLink);
    }
    Ok(free[i])
}
