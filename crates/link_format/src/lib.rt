// What a link file is, and what its reader answers and leaves (specs/), with the laws that the reader takes exactly such
// files (proofs/). There is no code here but the type of what a file gives; `link_file` reads.
#![tactic(auto)]

// What the trailer says of the table: n and m.
#[derive(Clone, Copy, Debug, PartialEq, Eq)]
pub struct Size {
    pub nodes: u32,
    pub links: u32,
}
