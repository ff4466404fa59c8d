// What calls grant, as the rest of a line: a path, a release, a number that is read.
ghost use Rattle.std.specs.Prelude.{◌≡◌, ℕ, ◌+◌, ◌*◌, ◌≤◌, List, [], ◌∷◌, ◌++◌, length};
ghost use Rattle.arrayvec.specs.ArrayVec.{array_vec_len};
ghost use Rattle.answer_lines.specs.Answers.{line_text, grant_text, counted_text, released_text};

use crate::{put_line, put_path};
use arrayvec::ArrayVec;
use network::Grant;

// What a call may grant, as it is put into texts with room for N bytes: its text, and how many bytes that has at most.
pub trait Granted<const N: usize> {
    ghost written: { Self → List ℕ };

    ghost room: { Self → ℕ };

    fn put(self, text: &mut ArrayVec<u8, N>)
        requires { array_vec_len text.old + room self ≤ N }
        ensures text { text.new.items ≡ text.old.items ++ written self }
        ensures most { array_vec_len text.new ≤ array_vec_len text.old + room self };
}

// What a quote or an admission grants, with the words of its path buffer: the path stands in the first of them.
#[derive(Clone, Copy)]
pub(crate) struct Route<'a> {
    pub(crate) grant: Grant,
    pub(crate) path: &'a [u32],
}

// Problem, delay, cost and the path.
impl<const N: usize> Granted<N> for Route<'_> {
    ghost written = { λ r. grant_text r.grant r.path.now };

    ghost room = { λ r. 11 * length r.path.now + 34 };

    #[tactic(auto, unfolding(crate::specs::Answers::grant_text))]
    fn put(self, text: &mut ArrayVec<u8, N>) {
        let g = self.grant;
        text::put_fields(text, &[g.problem.into(), g.delay, g.cost]);
        put_path(text, self.path, g.links);
    }
}

// How many words there are of something, and these words.
#[derive(Clone, Copy)]
pub(crate) struct Counted<'a> {
    pub(crate) count: u32,
    pub(crate) words: &'a [u32],
}

// The count and the words.
impl<const N: usize> Granted<N> for Counted<'_> {
    ghost written = { λ c. counted_text c.count c.words.now };

    ghost room = { λ c. 11 * length c.words.now + 23 };

    #[tactic(auto, unfolding(crate::specs::Answers::line_text))]
    fn put(self, text: &mut ArrayVec<u8, N>) {
        text::put_field(text, self.count);
        put_line(text, self.words);
    }
}

// A release grants nothing further.
impl<const N: usize> Granted<N> for () {
    ghost written = { λ _. released_text };

    ghost room = { λ _. 10 };

    fn put(self, text: &mut ArrayVec<u8, N>) {
        text::put(text, b" released\n");
    }
}

// A listing's count, or a link's free units.
impl<const N: usize> Granted<N> for u32 {
    ghost written = { λ value. line_text (value ∷ []) };

    ghost room = { λ _. 12 };

    fn put(self, text: &mut ArrayVec<u8, N>) {
        put_line(text, &[self]);
    }
}
