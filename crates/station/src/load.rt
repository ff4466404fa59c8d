// Load: a link table and the nodes' hold times into an area.
ghost use Rattle.std.specs.Prelude.{◌≡◌};
ghost use Rattle.area.specs.Refusals.{numbered};
ghost use Rattle.area.specs.Load.{input_of, load_answer, area_loaded};

use crate::layout;
use crate::table::{hold_times_fit, links_fit};
use area::Refusal;
use links::link::Links;
use network::limits::{LEAST_NODES, LINK_WORDS, MOST_NODES};

// 1, 2, 3, 4 and 22 in this order; else n, m, 0, the links and the hold times are written, and all other words keep their
// contents.
pub fn load(n: u32, links: &[u32], hold_times: &[u32], area: &mut [u32]) -> Result<(), Refusal>
    ensures answer { numbered result ≡ load_answer area.old (input_of n links.now hold_times.now) }
    ensures area { area.new ≡ area_loaded area.old (input_of n links.now hold_times.now) }
{
    if area.len() < layout::AREA_WORDS {
        return Err(Refusal::AreaShort);
    }
    if !(LEAST_NODES..=MOST_NODES).contains(&n) {
        return Err(Refusal::NodeCount);
    }
    if links.len() % LINK_WORDS != 0 || layout::TABLE_WORDS < links.len() {
        return Err(Refusal::WordCount);
    }
    let count = links.len() / LINK_WORDS;
    let table = Links {
        words: links,
        count,
    };
    if !links_fit(n as usize, &table) {
        return Err(Refusal::LinkRange);
    }
    if !hold_times_fit(n as usize, hold_times) {
        return Err(Refusal::HoldRange);
    }
    layout::put(area, layout::FIRST_LINK, links);
    area[layout::NODES] = n;
    area[layout::LINKS] = count as u32;
    area[layout::HELD] = 0;
    layout::put(area, layout::FIRST_HOLD, hold_times);
    Ok(())
}
