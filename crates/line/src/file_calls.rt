// The link-file reader for C.
ghost use Rattle.std.specs.Prelude.{◌≡◌, length};
ghost use Rattle.link_format.specs.Reading.{read_answer, table_read};
ghost use Rattle.line.specs.Codes.{code, words_after, size_words};

use crate::told::tell;

// 17, 18 and 19; else 0, the links' words in `table`, and n and m in `answer`.
#[unsafe(no_mangle)]
pub extern "C" fn line_read_link_file(file: &[u8], table: &mut [u32], answer: &mut [u32; 2]) -> u32
    ensures code { result ≡ code (read_answer file.now (length table.old)) }
    ensures answer { answer.new ≡ words_after size_words (read_answer file.now (length table.old)) answer.old }
    ensures table { table.new ≡ table_read file.now table.old }
{
    tell(link_file::read(file, table), answer)
}
