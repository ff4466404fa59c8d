// A well-formed area. `free_in` is the check with which every call on a loaded area begins; it takes any words.
ghost use Rattle.std.specs.Prelude.{◌≡◌, true, ℕ, get_or, is_ok, is_some, IfOk, IfErr, IfSome};
ghost use Rattle.area.specs.declared.refusal.Refusal.TheVariants.{NotWellFormed};
ghost use Rattle.area.specs.Station.{nodes_in, links_in, held_in, table_in, station};
ghost use Rattle.area.specs.Books.{holds};
ghost use Rattle.area.specs.Formed.{well_formed};
ghost use Rattle.area.specs.FreeIn.{free_in};
ghost use Rattle.area.specs.Held.{place_of};

use crate::places::Places;
use crate::table::{Table, links_in};
use crate::{layout, units};
use area::Refusal;
use links::link::Links;
use network::limits::MOST_LINKS;

// Each link's free units in this area, or 5 where the area is not well formed.
pub fn free_in(area: &[u32]) -> Result<[u32; MOST_LINKS], Refusal>
    ensures formed { is_ok result ≡ well_formed area.now }
    ensures units { IfOk result (λ free. (i : ℕ) → get_or free i 0 ≡ free_in area.now i) }
    ensures refused { IfErr result (λ e. e ≡ NotWellFormed) }
{
    parse(area).ok_or(Refusal::NotWellFormed)
}

// The same where the area is well formed.
fn parse(area: &[u32]) -> Option<[u32; MOST_LINKS]>
    ensures formed { is_some result ≡ well_formed area.now }
    ensures units { IfSome result (λ free. (i : ℕ) → get_or free i 0 ≡ free_in area.now i) }
{
    if area.len() < layout::AREA_WORDS {
        return None;
    }
    let table = Table::read(area)?;
    let count = area[layout::HELD] as usize;
    if layout::MOST_CIRCUITS < count {
        return None;
    }
    units::free_units(&table, &Places { area, count })
}

// The words of a well-formed area, and each link's free units.
#[derive(Clone, Copy)]
pub struct Station<'a> {
    pub area: &'a [u32],
    pub free: &'a [u32; MOST_LINKS],
    pub ghost formed: { well_formed area.now ≡ true },
    pub ghost units: { (i : ℕ) → get_or free.now i 0 ≡ free_in area.now i },
}

impl<'a> Station<'a> {
    // How many nodes there are.
    #[tactic(auto, using(area::proofs::ReadCases::formed_long))]
    pub fn nodes(&self) -> usize
        ensures { result ≡ nodes_in self.now.area.now }
    {
        self.area[layout::NODES] as usize
    }

    // The link table.
    #[tactic(auto, using(area::proofs::ReadCases::formed_long, area::proofs::ReadCases::formed_links))]
    pub fn links(&self) -> Links<'a>
        ensures count { result.count ≡ links_in self.now.area.now }
        ensures words { result.words.now ≡ (table_in self.now.area.now).words }
    {
        links_in(self.area)
    }

    // How many circuits are held.
    #[tactic(auto, using(area::proofs::ReadCases::formed_long))]
    pub fn held(&self) -> usize
        ensures { result ≡ held_in self.now.area.now }
    {
        self.area[layout::HELD] as usize
    }

    // The places of the held circuits.
    pub(crate) fn places(&self) -> Places<'a>
        ensures area { result.area.now ≡ self.now.area.now }
        ensures count { result.count ≡ held_in self.now.area.now }
    {
        Places {
            area: self.area,
            count: self.held(),
        }
    }

    // The place of this circuit number: behind those with a lower one.
    #[tactic(auto, unfolding(area::specs::Held::place_of))]
    pub fn place_of(&self, number: u32) -> usize
        ensures { result ≡ place_of self.now.area.now number }
    {
        self.places().of(number)
    }

    // Whether the circuit at a number's place has this number. Admission and release hand it the place that `place_of` gave.
    pub fn holds(&self, number: u32, j: usize) -> bool
        requires { j ≡ place_of self.now.area.now number }
        ensures { result ≡ holds (station self.now.area.now).held number }
    {
        j < self.held() && self.places().number(j) == number
    }
}
