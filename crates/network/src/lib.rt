// Networks of links: what a path, a scaled weight, a reduced problem and a solution are (specs/), with their laws (proofs/).
// There is no code here but document 01's numbers (`limits`) and the types of a request and of a search's answer. Every other
// room speaks in these terms.
#![tactic(auto)]

mod answer;
pub mod limits;

pub use crate::answer::{NoRoute, Reduction};

// What a job asks for, whatever its nodes: its units, its bounds D and C, and its coefficient. The search's x is the
// coefficient times the distance.
#[derive(Clone, Copy, Debug, PartialEq, Eq)]
pub struct Terms {
    pub units: u32,
    pub delay_bound: u32,
    pub cost_bound: u32,
    pub coefficient: u32,
}

// A request of document 01: from source to target, on these terms.
#[derive(Clone, Copy, Debug, PartialEq, Eq)]
pub struct Request {
    pub source: u32,
    pub target: u32,
    pub terms: Terms,
}

// A granted path: the problem that granted it, its delay, its cost and its number of links.
#[derive(Clone, Copy, Debug, PartialEq, Eq)]
pub struct Grant {
    pub problem: Reduction,
    pub delay: u32,
    pub cost: u32,
    pub links: u32,
}
