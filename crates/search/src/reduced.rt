// One reduced problem as a table is filled for it: the bounds, and of each link what a relaxation and the trace read.
ghost use Rattle.search.specs.Hops.{HopsFit};

// A link as a relaxation uses it: its ends, whether it may be used, its kept weight and its scaled weight. The list of them
// stands on the stack, so the fields are no larger than they must be.
#[derive(Clone, Copy, Debug, Default, PartialEq, Eq)]
pub struct Hop {
    pub tail: u8,
    pub head: u8,
    pub usable: bool,
    pub kept: u32,
    pub step: u32,
}

// The numbers of one reduced problem: how many nodes, the bound x of the scaled weight, the bound of the kept weight, and
// the links.
#[derive(Clone, Copy)]
pub struct Reduced<'a> {
    pub nodes: usize,
    pub x: usize,
    pub bound: u32,
    pub hops: &'a [Hop],
    pub ghost fits: { HopsFit nodes x bound hops.now },
}
