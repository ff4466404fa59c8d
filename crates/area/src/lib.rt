// The words of a station area: what they say, when an area is well formed, free units and usable links, what a store does
// to the station, and what Load, the listing and free units answer (specs/), with their laws (proofs/). There is no code
// here but the types of a refusal and of the layout's numbers; `station` reads and writes the words.
#![tactic(auto)]

mod refusal;

pub use crate::refusal::Refusal;

// The numbers of an area's layout, and the ranges of its circuits.
#[derive(Drop)]
pub struct Layout {
    pub area_words: usize,
    pub first_link: usize,
    pub table_words: usize,
    pub first_circuit: usize,
    pub circuit_words: usize,
    pub path_start: usize,
    pub most_circuits: usize,
    pub first_hold: usize,
    pub least_number: u32,
    pub most_number: u32,
}
