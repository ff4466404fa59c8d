// A link table, the hold times and their ranges, for loading and for the reading of an area.
ghost use Rattle.std.specs.Prelude.{◌≡◌, ℕ, ◌<◌, ◌≤◌, length, is_some, IfSome};
ghost use Rattle.network.specs.Limits.{most_links, most_nodes};
ghost use Rattle.network.specs.Words.{field};
ghost use Rattle.area.specs.Layout.{area_words};
ghost use Rattle.area.specs.Station.{nodes_in, links_in, table_in};
ghost use Rattle.area.specs.Formed.{link_fits, links_fit, hold_times_fit, table_fits};

use crate::layout;
use links::link::Links;
use network::limits::{
    LEAST_NODES, LINK_WORDS, MOST_CAPACITY, MOST_COST, MOST_DELAY, MOST_HOLD, MOST_LINKS,
    MOST_NODES,
};

// Whether link `i` has both ends among `n` nodes and apart, and its weights and its capacity in range.
#[tactic(auto, unfolding(area::specs::Formed::link_fits))]
fn link_fits(n: usize, links: &Links<'_>, i: usize) -> bool
    requires { i < links.now.count }
    ensures { result ≡ link_fits n links.now.words.now i }
{
    let link = links.get(i);
    link.from < n
        && link.to < n
        && link.from != link.to
        && link.delay <= MOST_DELAY
        && link.cost <= MOST_COST
        && link.capacity <= MOST_CAPACITY
}

// Whether every link fits `n` nodes.
pub fn links_fit(n: usize, links: &Links<'_>) -> bool
    ensures { result ≡ links_fit n links.now.count links.now.words.now }
{
    (0..links.count).all(|i| link_fits(n, links, i))
}

// Whether each of `n` nodes has a hold time, in its range.
pub fn hold_times_fit(n: usize, hold_times: &[u32]) -> bool
    ensures { result ≡ hold_times_fit n hold_times.now }
{
    hold_times.len() == n && hold_times.iter().all(|hold| *hold <= MOST_HOLD)
}

// The links of an area that is long enough and counts no more of them than a table has: `Table::read` tests the count, and a
// station's area has both.
pub fn links_in(area: &[u32]) -> Links<'_>
    requires long { area_words ≤ length area.now }
    requires few { links_in area.now ≤ most_links }
    ensures count { result.count ≡ links_in area.now }
    ensures words { result.words.now ≡ (table_in area.now).words }
{
    let count = area[layout::LINKS] as usize;
    Links {
        words: layout::part(area, layout::FIRST_LINK, LINK_WORDS * count),
        count,
    }
}

// The hold times of an area that is long enough and has no more nodes than a table has.
pub fn hold_times_in(area: &[u32]) -> &[u32]
    requires long { area_words ≤ length area.now }
    requires few { nodes_in area.now ≤ most_nodes }
    ensures { result.now ≡ (table_in area.now).hold_times }
{
    layout::part(area, layout::FIRST_HOLD, area[layout::NODES] as usize)
}

// The links of a table. The ends of each are below the most nodes that a table has.
#[derive(Clone, Copy)]
pub struct Table<'a> {
    pub links: Links<'a>,
    ghost from: { (i : ℕ) → i < links.count → field links.words.now i 0 < most_nodes },
    ghost to: { (i : ℕ) → i < links.count → field links.words.now i 1 < most_nodes },
}

impl<'a> Table<'a> {
    // The table of an area of full length, where its numbers are in their ranges. `formed::parse` tests the length.
    pub fn read(area: &'a [u32]) -> Option<Table<'a>>
        requires { area_words ≤ length area.now }
        ensures fits { is_some result ≡ table_fits (table_in area.now) }
        ensures count { IfSome result (λ t. t.links.count ≡ links_in area.now) }
        ensures words { IfSome result (λ t. t.links.words.now ≡ (table_in area.now).words) }
    {
        let nodes = area[layout::NODES];
        if !(LEAST_NODES..=MOST_NODES).contains(&nodes)
            || MOST_LINKS < area[layout::LINKS] as usize
        {
            return None;
        }
        let links = links_in(area);
        if !links_fit(nodes as usize, &links) {
            return None;
        }
        if !hold_times_fit(nodes as usize, hold_times_in(area)) {
            return None;
        }
        Some(Table { links })
    }
}
