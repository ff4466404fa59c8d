// The link-file reader of document 01: free notes, then link records of 20 bytes, then a trailer of 16 bytes that says
// where the first record begins, how many there are, and how many nodes.
//
// The reader takes anything: any bytes, a table of any length. It checks in document 01's order and refuses by the first
// number that applies; a refusal changes nothing.
//
// `word` reads a word and the letters at the end; `records` the records, from the part of the file that is handed to it.
#![tactic(auto)]

ghost use Rattle.std.specs.Prelude.{◌≡◌, length};
ghost use Rattle.area.specs.Refusals.{numbered};
ghost use Rattle.link_format.specs.Reading.{read_answer, table_read};

mod records;
mod word;

use crate::records::read_records;
use crate::word::{is_signed, word};
use area::Refusal;
use link_format::Size;
use network::limits::{LINK_WORDS, MOST_LINKS};

// 17, 18 and 19 in this order; else n and m, and the records' words stand in the first 5 m words of `table`, whose other
// words keep theirs. A usize has 64 bits, so the sum of the offset and the records' bytes is exact.
#[tactic(auto, unfolding(link_format::specs::Reading::read_answer, link_format::specs::Reading::table_read, link_format::specs::Reading::fills, link_format::specs::Reading::record_words, link_format::specs::Reading::signed))]
pub fn read(file: &[u8], table: &mut [u32]) -> Result<Size, Refusal>
    ensures answer { numbered result ≡ read_answer file.now (length table.old) }
    ensures table { table.new ≡ table_read file.now table.old }
{
    if !is_signed(file) {
        return Err(Refusal::NotSigned);
    }
    let end = file.len();
    let links = word(file, end - 12);
    let m = links as usize;
    let offset = word(file, end - 16) as usize;
    if MOST_LINKS < m || offset + 20 * m + 16 != end {
        return Err(Refusal::FileLength);
    }
    if table.len() < LINK_WORDS * m {
        return Err(Refusal::TableShort);
    }
    read_records(&file[offset..], m, table);
    let nodes = word(file, end - 8);
    Ok(Size { nodes, links })
}
