// Load, listing and free units for C.
ghost use Rattle.std.specs.Prelude.{◌≡◌, length};
ghost use Rattle.area.specs.Load.{input_of, load_answer, area_loaded};
ghost use Rattle.area.specs.Reads.{list_answer, listed, free_answer};
ghost use Rattle.line.specs.Codes.{code, words_after, value_words};
ghost use Rattle.line.specs.Meaning.{ListTells};

use crate::told::{code, tell};
use station::load::load;
use station::reads;

// 1, 2, 3, 4 and 22; else 0, and n, m, 0, the links and the hold times are written.
#[unsafe(no_mangle)]
pub extern "C" fn line_load(n: u32, links: &[u32], hold_times: &[u32], area: &mut [u32]) -> u32
    ensures code { result ≡ code (load_answer area.old (input_of n links.now hold_times.now)) }
    ensures area { area.new ≡ area_loaded area.old (input_of n links.now hold_times.now) }
{
    code(load(n, links, hold_times, area))
}

// 5 and 14; else 0, the held circuits' numbers in `numbers`, and how many they are in `answer`.
#[unsafe(no_mangle)]
pub extern "C" fn line_list(area: &[u32], numbers: &mut [u32], answer: &mut [u32; 1]) -> u32
    ensures code { result ≡ code (list_answer area.now (length numbers.old)) }
    ensures answer { answer.new ≡ words_after value_words (list_answer area.now (length numbers.old)) answer.old }
    ensures numbers { numbers.new ≡ listed area.now numbers.old }
    ensures means { ListTells area.now numbers.old answer.old result numbers.new answer.new }
{
    tell(reads::list(area, numbers), answer)
}

// 5 and 15; else 0, and the link's free units in `answer`.
#[unsafe(no_mangle)]
pub extern "C" fn line_free_units(area: &[u32], link: u32, answer: &mut [u32; 1]) -> u32
    ensures code { result ≡ code (free_answer area.now link) }
    ensures answer { answer.new ≡ words_after value_words (free_answer area.now link) answer.old }
{
    tell(reads::free_units(area, link), answer)
}
