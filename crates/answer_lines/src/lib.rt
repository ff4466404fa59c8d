// What a load, a call and a reading answer, and a path, as text: the rest of a line behind what the line is about, with
// its newline. Each function appends its bytes to a text, as those of `text` do, which the programs that print what the calls
// answer make by value; a field has at most eleven bytes. A caller with no room for a text of its own has a lent slice, and
// `lent` puts the same bytes into that.
#![tactic(auto)]

mod granted;
pub mod lent;

ghost use Rattle.std.specs.Prelude.{◌≡◌, ◌+◌, ◌*◌, ◌≤◌, ◌++◌, length};
ghost use Rattle.arrayvec.specs.ArrayVec.{array_vec_len};
ghost use Rattle.area.specs.Refusals.{number, numbered};
ghost use Rattle.answer_lines.specs.Answers.{line_text, refused_text, path_text, answer_text, routed_text, jobs_text, answer_room, loading_text};

pub use crate::granted::Granted;
use crate::granted::{Counted, Route};
use area::Refusal;
use arrayvec::ArrayVec;
use network::Grant;

// A field for each of these numbers, and the newline. The callers put one or two numbers, or words whose room they ask for.
#[tactic(auto, unfolding(crate::specs::Answers::line_text))]
pub fn put_line<const N: usize>(text: &mut ArrayVec<u8, N>, numbers: &[u32])
    requires { array_vec_len text.old + 11 * length numbers.now + 1 ≤ N }
    ensures text { text.new.items ≡ text.old.items ++ line_text numbers.now }
    ensures most { array_vec_len text.new ≤ array_vec_len text.old + 11 * length numbers.now + 1 }
{
    text::put_fields(text, numbers);
    text::put(text, b"\n");
}

// The links of a path that stands in the first of these words: as many as there are links. `history` lends a text with room
// for all of the words, and a `Route` leaves as much.
pub fn put_path<const N: usize>(text: &mut ArrayVec<u8, N>, words: &[u32], links: u32)
    requires { array_vec_len text.old + 11 * length words.now + 1 ≤ N }
    ensures text { text.new.items ≡ text.old.items ++ path_text links words.now }
    ensures most { array_vec_len text.new ≤ array_vec_len text.old + 11 * length words.now + 1 }
{
    put_line(text, &words[..words.len().min(links as usize)]);
}

// 0 and the refusal's number.
fn put_refused<const N: usize>(text: &mut ArrayVec<u8, N>, refusal: Refusal)
    requires { array_vec_len text.old + 23 ≤ N }
    ensures text { text.new.items ≡ text.old.items ++ refused_text (number refusal) }
    ensures most { array_vec_len text.new ≤ array_vec_len text.old + 23 }
{
    put_line(text, &[0, refusal.into()]);
}

// What a call answered: that it is refused, or what it grants. The programs lend room for the longest: a path of 31 links has
// 375 bytes at most, each word that answers a job has 11, and what else is answered has 23.
#[tactic(auto, unfolding(crate::specs::Answers::answer_text))]
pub fn put_answer<T: Granted<N>, const N: usize>(
    text: &mut ArrayVec<u8, N>,
    answer: Result<T, Refusal>,
)
    requires { array_vec_len text.old + answer_room T.room (numbered answer) ≤ N }
    ensures text { text.new.items ≡ text.old.items ++ answer_text T.written (numbered answer) }
    ensures most { array_vec_len text.new ≤ array_vec_len text.old + answer_room T.room (numbered answer) }
{
    match answer {
        Err(refusal) => put_refused(text, refusal),
        Ok(granted) => granted.put(text),
    }
}

// What a quote or an admission answered, with the words of its path buffer. The programs lend room for the 31 words of a
// path, 375 bytes.
#[tactic(auto, unfolding(crate::specs::Answers::answer_text, crate::specs::Answers::routed_text))]
pub fn put_routed<const N: usize>(
    text: &mut ArrayVec<u8, N>,
    answer: Result<Grant, Refusal>,
    path: &[u32],
)
    requires { array_vec_len text.old + 11 * length path.now + 34 ≤ N }
    ensures text { text.new.items ≡ text.old.items ++ routed_text (numbered answer) path.now }
    ensures most { array_vec_len text.new ≤ array_vec_len text.old + 11 * length path.now + 34 }
{
    put_answer(text, answer.map(|grant| Route { grant, path }));
}

// What the call for all jobs answered, with the words that answer them: none where it is refused. `history` lends room for those of
// its jobs.
#[tactic(auto, unfolding(crate::specs::Answers::answer_text, crate::specs::Answers::jobs_text))]
pub fn put_jobs<const N: usize>(
    text: &mut ArrayVec<u8, N>,
    answer: Result<u32, Refusal>,
    words: &[u32],
)
    requires { array_vec_len text.old + 11 * length words.now + 23 ≤ N }
    ensures text { text.new.items ≡ text.old.items ++ jobs_text (numbered answer) words.now }
    ensures most { array_vec_len text.new ≤ array_vec_len text.old + 11 * length words.now + 23 }
{
    put_answer(text, answer.map(|count| Counted { count, words }));
}

// What a load answered, as a line of its own. The programs lend a text of 13 bytes.
#[tactic(auto, unfolding(crate::specs::Answers::loading_text))]
pub fn put_loading<const N: usize>(text: &mut ArrayVec<u8, N>, loading: Result<(), Refusal>)
    requires { array_vec_len text.old + 13 ≤ N }
    ensures text { text.new.items ≡ text.old.items ++ loading_text (numbered loading) }
    ensures most { array_vec_len text.new ≤ array_vec_len text.old + 13 }
{
    match loading {
        Err(refusal) => {
            text::put(text, b"0");
            put_line(text, &[refusal.into()]);
        }
        Ok(()) => text::put(text, b"loaded\n"),
    }
}
