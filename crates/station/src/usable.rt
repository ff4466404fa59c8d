// Which links are usable for a request: those of which at least so many units are free. The search reads the flags.
ghost use Rattle.std.specs.Prelude.{◌≡◌, false, ℕ, ◌<◌, get_or, leb};
ghost use Rattle.network.specs.Limits.{most_links};

use network::limits::MOST_LINKS;

// Writes the flag of each link for a request of so many units, by the links' free units. They are written where the caller has
// them, so that nothing is copied.
pub fn put_usable(free: &[u32; MOST_LINKS], units: u32, usable: &mut [bool; MOST_LINKS])
    ensures { (i : ℕ) → i < most_links → get_or usable.new i false ≡ leb units (get_or free.now i 0) }
{
    for i in 0..MOST_LINKS {
        usable[i] = units <= free[i];
    }
}
