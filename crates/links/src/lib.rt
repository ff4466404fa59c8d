// Small types and functions that the rooms above share: the links of a table as its words say them, the set of nodes on a
// path, formula 1 for the scaled weight of one link, and the ranges of a job's terms.
#![tactic(auto)]

pub mod limits;
pub mod link;
pub mod node_set;
pub mod scale;
pub mod terms;
