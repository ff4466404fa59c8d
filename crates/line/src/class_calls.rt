// Class tables for C: the check, a class, and the sample table.
ghost use Rattle.std.specs.Prelude.{◌≡◌};
ghost use Rattle.rules.specs.Classes.{check_answer, class_answer};
ghost use Rattle.rules.specs.SampleClasses.{sample};
ghost use Rattle.line.specs.Codes.{code, words_after, terms_words};
ghost use Rattle.line.specs.Meaning.{CheckTells, ClassTells};

use crate::told::{code, tell};
use classes::sample::{SAMPLE_WORDS, sample};

// 20 and 21; else 0.
#[unsafe(no_mangle)]
pub extern "C" fn line_check_classes(rows: &[u32]) -> u32
    ensures code { result ≡ code (check_answer rows.now) }
    ensures means { CheckTells rows.now result }
{
    code(classes::check(rows))
}

// 20, 21 and 16; else 0, and units, D, C and coefficient in `answer`.
#[unsafe(no_mangle)]
pub extern "C" fn line_class(rows: &[u32], class: u32, answer: &mut [u32; 4]) -> u32
    ensures code { result ≡ code (class_answer rows.now class) }
    ensures answer { answer.new ≡ words_after terms_words (class_answer rows.now class) answer.old }
    ensures means { ClassTells rows.now class answer.old result answer.new }
{
    tell(classes::class(rows, class), answer)
}

// None; 0, and the sample table's words in `answer`.
#[unsafe(no_mangle)]
pub extern "C" fn line_sample_classes(answer: &mut [u32; SAMPLE_WORDS]) -> u32
    ensures code { result ≡ 0 }
    ensures answer { answer.new ≡ sample }
{
    *answer = sample();
    0
}
