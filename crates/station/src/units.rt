// Free units: every link's capacity, less the units of each circuit that uses it. Where a link has too few left, the
// circuits take more than its capacity.
ghost use Rattle.std.specs.Prelude.{◌≡◌, true, ℕ, ◌-◌, ◌<◌, ◌&&◌, get_or, is_some, IfSome};
ghost use Rattle.network.specs.Limits.{most_links};
ghost use Rattle.network.specs.Lists.{All};
ghost use Rattle.network.specs.Words.{field};
ghost use Rattle.area.specs.Station.{circuits};
ghost use Rattle.area.specs.Books.{usage};
ghost use Rattle.area.specs.Formed.{goes_on, path_fits, circuits_fit};
ghost use Rattle.area.specs.Units.{enough, taken};

use crate::circuits::Circuit;
use crate::places::Places;
use crate::table::Table;
use links::link::Links;
use links::node_set::NodeSet;
use network::limits::MOST_LINKS;

// The capacity of each link; 0 past the links of the table. Only as many entries are written as there are links: a station
// mostly has far fewer than a table has room for, and every call comes here.
fn capacities(links: &Links<'_>) -> [u32; MOST_LINKS]
    ensures { (i : ℕ) → get_or result i 0 ≡ field links.now.words.now i 4 }
{
    let mut words = [0; MOST_LINKS];
    for i in 0..links.count {
        words[i] = links.get(i).capacity;
    }
    words
}

// Whether link `i` goes on from node `v`, to a node that is not in `seen`.
#[tactic(auto, unfolding(area::specs::Formed::goes_on))]
fn goes_on(table: &Table<'_>, v: usize, seen: NodeSet, i: usize) -> bool
    ensures { result ≡ goes_on table.now.links.count table.now.links.words.now v seen i }
{
    if table.links.count <= i {
        return false;
    }
    let link = table.links.get(i);
    link.from == v && !seen.contains(link.to)
}

// Takes the circuit's units of each link of its path; false where that is no path of the table or a link has fewer, and then
// nobody reads what is left of `free`. The path is gone through once for both, by the node reached and those passed.
fn take(table: &Table<'_>, free: &mut [u32; MOST_LINKS], circuit: &Circuit<'_>) -> bool
    ensures fits { result ≡ (path_fits table.now.links.count table.now.links.words.now circuit.now.path.now && enough circuit.now.units circuit.now.path.now free.old) }
    ensures words { result ≡ true → free.new ≡ taken circuit.now.units circuit.now.path.now free.old }
{
    let start = circuit.path[0] as usize;
    if table.links.count <= start {
        return false;
    }
    let mut v = table.links.get(start).from;
    let mut seen = NodeSet::new().with(v);
    for &link in circuit.path {
        let i = link as usize;
        if !goes_on(table, v, seen, i) || free[i] < circuit.units {
            return false;
        }
        free[i] -= circuit.units;
        v = table.links.get(i).to;
        seen = seen.with(v);
    }
    true
}

// Takes these units of each link of a path, which an admission has found among the usable links.
pub fn take_units(free: &mut [u32; MOST_LINKS], units: u32, path: &[u32])
    requires links { All (λ i. i < most_links) path.now }
    requires enough { enough units path.now free.old ≡ true }
    ensures { free.new ≡ taken units path.now free.old }
{
    for &link in path {
        free[link as usize] -= units;
    }
}

// Each link's free units, where every circuit fits, their numbers rise, and they take at most each link's capacity. A place
// is a number: the area is read by index.
pub fn free_units(table: &Table<'_>, places: &Places<'_>) -> Option<[u32; MOST_LINKS]>
    ensures fit { let m = table.now.links.count in
        let words = table.now.links.words.now in
        is_some result ≡ circuits_fit m words places.now.area.now places.now.count }
    ensures free { let words = table.now.links.words.now in
        let cs = circuits places.now.area.now places.now.count in
        IfSome result (λ free. (i : ℕ) → get_or free i 0 ≡ field words i 4 - usage cs i) }
{
    let mut free = capacities(&table.links);
    for j in 0..places.count {
        let circuit = places.get(j)?;
        if !take(table, &mut free, &circuit) {
            return None;
        }
    }
    Some(free)
}
