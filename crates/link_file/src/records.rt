// The record reader. It is handed the file's part from the first record on.
ghost use Rattle.std.specs.Prelude.{◌≡◌, ◌++◌, ◌*◌, ◌≤◌, length, drop};
ghost use Rattle.network.specs.Limits.{link_words, most_links};
ghost use Rattle.link_format.specs.Reading.{words_from};

use crate::word::word;
use network::limits::LINK_WORDS;

// The words of `m` records, five each, into the first words of `table`. The reader has checked both lengths. Each word is
// counted: the prover knows nothing of words that are written while they are zipped with chunks of the bytes.
pub fn read_records(records: &[u8], m: usize, table: &mut [u32])
    requires lengths { (m ≤ most_links) × (20 * m ≤ length records.now) }
    requires room { link_words * m ≤ length table.old }
    ensures { table.new ≡ words_from records.now 0 (link_words * m) ++ drop (link_words * m) table.old }
{
    for (i, to) in table[..LINK_WORDS * m].iter_mut().enumerate() {
        *to = word(records, 4 * i);
    }
}
