// Document 01's lengths and ranges of links, requests and the search, each under one name, which all other code cites: a
// number of these is changed here and in specs/Limits.antt, which has the same names for the definitions. The contract of
// `links::limits::figures` equates the two.

// n, the number of nodes, and m, the number of links.
pub const LEAST_NODES: u32 = 2;

pub const MOST_NODES: u32 = 32;

pub const MOST_LINKS: usize = 256;

// The words of a link: from, to, delay, cost, capacity.
pub const LINK_WORDS: usize = 5;

// A link's delay, cost and capacity.
pub const MOST_DELAY: u32 = 1000000;

pub const MOST_COST: u32 = 1000000;

pub const MOST_CAPACITY: u32 = 65535;

// A node's hold time.
pub const MOST_HOLD: u32 = 1000000;

// l, the number of links of a path: it passes no node twice.
pub const LEAST_PATH_LINKS: u32 = 1;

pub const MOST_PATH_LINKS: u32 = 31;

// b, the units asked for.
pub const LEAST_UNITS: u32 = 1;

pub const MOST_UNITS: u32 = 65535;

// The bounds D, of the delay, and C, of the cost.
pub const LEAST_BOUND: u32 = 0;

pub const MOST_DELAY_BOUND: u32 = 61000000;

pub const MOST_COST_BOUND: u32 = 31000000;

pub const LEAST_COEFFICIENT: u32 = 1;

pub const MOST_COEFFICIENT: u32 = 8;

// x, the coefficient times the distance.
pub const MOST_X: u32 = 248;

// What a search is lent: the words of work memory and of a path buffer, at least.
pub const WORK_WORDS: usize = 16384;

pub const PATH_WORDS: usize = 31;

// All of them.
#[derive(Clone, Copy)]
pub struct Limits {
    pub least_nodes: u32,
    pub most_nodes: u32,
    pub most_links: usize,
    pub link_words: usize,
    pub most_delay: u32,
    pub most_cost: u32,
    pub most_capacity: u32,
    pub most_hold: u32,
    pub least_path_links: u32,
    pub most_path_links: u32,
    pub least_units: u32,
    pub most_units: u32,
    pub least_bound: u32,
    pub most_delay_bound: u32,
    pub most_cost_bound: u32,
    pub least_coefficient: u32,
    pub most_coefficient: u32,
    pub most_x: u32,
    pub work_words: usize,
    pub path_words: usize,
}
