// The class program of document 01: reads a link file on standard input, loads a fresh area and quotes each class from
// node 0 to n - 1. It prints a line for each class, or that the file or the load was refused.
// All of it is one text by `report`, with the lines of the classes from `lines`; here it is only read, by `input`, and
// written.
#![tactic(auto)]

mod input;
mod lines;
mod report;

// The file buffer has room for one byte more than a file may have, so that a longer input shows. A write that fails is not
// told: the status is 0.
fn main(rt: HostRuntime) {
    let mut file = [0u8; 65537];
    let n = input::read_full(&mut rt.stdin(), &mut file);
    let _ = rt.write_all(report::report(&file[..n]).as_slice());
}
