// What the program prints for a file: all of it, as bytes.
ghost use Rattle.std.specs.Prelude.{◌≡◌};
ghost use Rattle.area.specs.Refusals.{number};
ghost use Rattle.class_format.specs.Output.{refusal, load_output, file_output, output};

use crate::lines::Classes;
use area::Refusal;
use arrayvec::ArrayVec;
use classes::sample::sample;
use network::limits::{LINK_WORDS, MOST_NODES};
use station::layout::{AREA_WORDS, TABLE_WORDS};
use station::load::load;

// A word and a refusal's number.
#[tactic(auto, unfolding(class_format::specs::Output::refusal, answer_lines::specs::Answers::line_text))]
fn refusal(word: &[u8; 4], k: Refusal) -> ArrayVec<u8, 4096>
    ensures { result.items ≡ refusal word.now (number k) }
{
    let mut text = ArrayVec::new();
    text::put(&mut text, word);
    answer_lines::put_line(&mut text, &[k.into()]);
    text
}

// What is printed for n and a table of links: they are loaded into a fresh area, with nodes that hold nothing, and each class of
// the sample table is quoted there, to the last node. A loaded area has at least two nodes.
fn quotes(n: u32, links: &[u32]) -> ArrayVec<u8, 4096>
    ensures { result.items ≡ load_output n links.now }
{
    let mut area = [0u32; AREA_WORDS];
    let hold_times = [0u32; MOST_NODES as usize];
    let count = (n as usize).min(hold_times.len());
    match load(n, links, &hold_times[..count], &mut area) {
        Err(k) => refusal(b"load", k),
        Ok(()) => Classes {
            rows: &sample(),
            area: &area,
            last: n - 1,
        }
        .lines(),
    }
}

// What is printed for a file of at most 65,536 bytes.
#[tactic(auto, using(class_format::proofs::Reported::file_refused))]
fn read(file: &[u8]) -> ArrayVec<u8, 4096>
    ensures { result.items ≡ file_output file.now }
{
    let mut table = [0u32; TABLE_WORDS];
    match link_file::read(file, &mut table) {
        Err(k) => refusal(b"file", k),
        Ok(size) => quotes(size.nodes, &table[..LINK_WORDS * size.links as usize]),
    }
}

// Everything that the program prints.
#[tactic(auto, using(class_format::proofs::Reported::long_file, class_format::proofs::Reported::taken))]
pub(crate) fn report(file: &[u8]) -> ArrayVec<u8, 4096>
    ensures { result.items ≡ output file.now }
{
    if 65536 < file.len() {
        let mut text = ArrayVec::new();
        text::put(&mut text, b"file long\n");
        return text;
    }
    read(file)
}
