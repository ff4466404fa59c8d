// A held circuit as its words say it, and the check of these words, the table aside.
ghost use Rattle.std.specs.Prelude.{◌≡◌, ◌≤◌, length, is_some, IfSome};
ghost use Rattle.area.specs.Layout.{circuit_words};
ghost use Rattle.area.specs.Station.{circuit_of};
ghost use Rattle.area.specs.Formed.{numbers_fit, unused_clear};

use crate::layout;
use network::limits::{LEAST_PATH_LINKS, LEAST_UNITS, MOST_PATH_LINKS, MOST_UNITS};

// Whether each path word that the path does not use is 0, in the words of a circuit; `Places::get` hands it those of one place.
// All are put together and asked once, so that a path's length costs no wrong guess of the processor.
pub fn unused_clear(words: &[u32]) -> bool
    requires { length words.now ≡ circuit_words }
    ensures { result ≡ unused_clear words.now }
{
    let count = words[2] as usize;
    let mut left = 0;
    for k in 0..MOST_PATH_LINKS as usize {
        left |= if k < count {
            0
        } else {
            words[layout::PATH_START + k]
        };
    }
    left == 0
}

// A circuit. Its path has a link or more.
#[derive(Clone, Copy)]
pub struct Circuit<'a> {
    pub number: u32,
    pub units: u32,
    pub path: &'a [u32],
    ghost some: { 1 ≤ length path.now },
}

impl<'a> Circuit<'a> {
    // The circuit of these words, where its number, its units and its link count are in their ranges. `Places::get` hands it
    // those of one place.
    pub fn read(words: &'a [u32]) -> Option<Circuit<'a>>
        requires { length words.now ≡ circuit_words }
        ensures fits { is_some result ≡ numbers_fit (circuit_of words.now) }
        ensures is { IfSome result (λ c. circuit_of words.now ≡ record { number = c.number; units = c.units; path = c.path.now }) }
    {
        let number = words[0];
        let units = words[1];
        let count = words[2];
        if !(layout::LEAST_NUMBER..=layout::MOST_NUMBER).contains(&number)
            || !(LEAST_UNITS..=MOST_UNITS).contains(&units)
            || !(LEAST_PATH_LINKS..=MOST_PATH_LINKS).contains(&count)
        {
            return None;
        }
        let path = layout::part(words, layout::PATH_START, count as usize);
        Some(Circuit {
            number,
            units,
            path,
        })
    }
}
