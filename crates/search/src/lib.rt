// The search as definitions and why it finds best solutions: section 2.3 of the paper, distance, the two problems by the
// roles of their weights, the pass along the path, and the stated result (specs/); the extended Bellman-Ford search itself
// in specs/ebf/. Laws stand in proofs/ in the same way. There is no code here but the types that `route` shares with these
// definitions; `route` computes what they say.
#![tactic(auto)]

mod reduced;

pub use crate::reduced::{Hop, Reduced};

// A place on the way back from the target: the node, and the scaled weight that may still be spent before it.
#[derive(Clone, Copy, Debug, PartialEq, Eq)]
pub struct TracePlace {
    pub node: usize,
    pub column: usize,
}

// How far a path has come: the node, and the links, the delay and the cost so far.
#[derive(Clone, Copy, Debug, PartialEq, Eq)]
pub struct PartialPath {
    pub node: usize,
    pub links: usize,
    pub delay: u32,
    pub cost: u32,
}
