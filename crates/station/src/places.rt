// The places of an area's circuits, and the place of a number among them.
ghost use Rattle.std.specs.Prelude.{◌≡◌, ◌≤◌, ◌<◌, length, leb, is_some, IfSome};
ghost use Rattle.network.specs.Loops.{first};
ghost use Rattle.area.specs.Layout.{area_words, most_circuits};
ghost use Rattle.area.specs.Station.{circuit_at};
ghost use Rattle.area.specs.Held.{number_at};
ghost use Rattle.area.specs.Formed.{rises, words_fit};

use crate::circuits::{Circuit, unused_clear};
use crate::layout;

// The first `count` places of circuits in an area, be it well formed or not.
#[derive(Clone, Copy)]
pub struct Places<'a> {
    pub area: &'a [u32],
    pub count: usize,
    pub ghost long: { area_words ≤ length area.now },
    pub ghost few: { count ≤ most_circuits },
}

impl<'a> Places<'a> {
    // The number of the circuit at place `j`.
    pub(crate) fn number(&self, j: usize) -> u32
        requires { j < self.now.count }
        ensures { result ≡ number_at self.now.area.now j }
    {
        self.area[layout::place(j)]
    }

    // The first of the places whose number is not below this one, or how many there are.
    pub fn of(&self, number: u32) -> usize
        ensures { result ≡ first (λ j. leb number (number_at self.now.area.now j)) self.now.count }
    {
        (0..self.count)
            .find(|j| number <= self.number(*j))
            .unwrap_or(self.count)
    }

    // Whether the number at place `j` is above the one before it.
    fn rises(&self, j: usize) -> bool
        requires { j < self.now.count }
        ensures { result ≡ rises self.now.area.now j }
    {
        j == 0 || self.number(j - 1) < self.number(j)
    }

    // The circuit at place `j`, where its words fit; the table is not asked.
    pub(crate) fn get(&self, j: usize) -> Option<Circuit<'a>>
        requires { j < self.now.count }
        ensures fits { is_some result ≡ words_fit self.now.area.now j }
        ensures is { let w = self.now.area.now in
            IfSome result (λ c. circuit_at w j ≡ record { number = c.number; units = c.units; path = c.path.now }) }
    {
        let words = layout::part(self.area, layout::place(j), layout::CIRCUIT_WORDS);
        let circuit = Circuit::read(words)?;
        if !unused_clear(words) || !self.rises(j) {
            return None;
        }
        Some(circuit)
    }
}
