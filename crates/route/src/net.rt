// A network as a search is handed it.
ghost use Rattle.std.specs.Prelude.{◌≤◌, length};
ghost use Rattle.network.specs.Words.{LinkTable};

use links::link::Links;

// Nodes 0 to `nodes` - 1 and these links, of whose words a search reads the ends. Beside them each has a flag, which is set
// where it is usable, a delay and a cost: whoever asks for a search prepares these, and the search knows nothing else of them.
#[derive(Clone, Copy)]
pub struct Network<'a> {
    pub nodes: usize,
    pub links: Links<'a>,
    pub usable: &'a [bool],
    pub delays: &'a [u32],
    pub costs: &'a [u32],
    pub ghost table: { LinkTable nodes links.count links.words.now delays.now costs.now },
    pub ghost flag_each: { links.count ≤ length usable.now },
    pub ghost delay_each: { links.count ≤ length delays.now },
    pub ghost cost_each: { links.count ≤ length costs.now },
}
