// The lines of the class program, one for each class of a class table. A line is the class, and what it is answered as
// `answer_lines` puts it: at most 10 and 375 bytes. Only `report` asks for them.
ghost use Rattle.std.specs.Prelude.{◌≡◌, ◌+◌, ◌*◌, ◌≤◌, ◌++◌};
ghost use Rattle.arrayvec.specs.ArrayVec.{array_vec_len};
ghost use Rattle.area.specs.Refusals.{numbered};
ghost use Rattle.rules.specs.ClassTable.{rows_in};
ghost use Rattle.text_format.specs.Decimal.{decimal};
ghost use Rattle.answer_lines.specs.Answers.{routed_text};
ghost use Rattle.class_format.specs.Lines.{request_of, class_line, lines};

use area::Refusal;
use arrayvec::ArrayVec;
use booking::quote::quote;
use classes::table::ROW_WORDS;
use network::limits::{PATH_WORDS, WORK_WORDS};
use network::{Grant, Request, Terms};

// What a class asks for, from node 0 to the last node.
#[tactic(auto, unfolding(class_format::specs::Lines::request_of))]
fn request(last: u32, terms: Terms) -> Request
    ensures { result ≡ request_of (last + 1) terms }
{
    Request {
        source: 0,
        target: last,
        terms,
    }
}

// A class table, the area on which its classes are quoted, and that area's last node.
#[derive(Clone, Copy)]
pub(crate) struct Classes<'a> {
    pub rows: &'a [u32],
    pub area: &'a [u32],
    pub last: u32,
}

impl Classes<'_> {
    // What class `k` is answered: it is refused as the class call refuses it, or its row is quoted on the area.
    fn answer(
        &self,
        work: &mut [u32; WORK_WORDS],
        path: &mut [u32; PATH_WORDS],
        k: u32,
    ) -> Result<Grant, Refusal>
        ensures { class_line self.now.rows.now self.now.area.now (self.now.last + 1) k ≡ decimal k ++ routed_text (numbered result) path.new }
    {
        let terms = classes::class(self.rows, k)?;
        quote(self.area, work, path, request(self.last, terms))
    }

    // The line of class `k`.
    fn put_class(&self, text: &mut ArrayVec<u8, 4096>, work: &mut [u32; WORK_WORDS], k: u32)
        requires { array_vec_len text.old + 385 ≤ 4096 }
        ensures text { text.new.items ≡ text.old.items ++ class_line self.now.rows.now self.now.area.now (self.now.last + 1) k }
        ensures most { array_vec_len text.new ≤ array_vec_len text.old + 385 }
    {
        let mut path = [0u32; PATH_WORDS];
        let said = self.answer(work, &mut path, k);
        text::put_number(text, k);
        answer_lines::put_routed(text, said, &path);
    }

    // The lines of all classes. The caller has loaded the area, and has a table whose lines the text has room for. A class goes by
    // its number, with which its line begins.
    #[tactic(auto, using(class_format::proofs::LineBytes::all_lines))]
    pub(crate) fn lines(&self) -> ArrayVec<u8, 4096>
        requires { 385 * rows_in self.now.rows.now ≤ 4096 }
        ensures { result.items ≡ lines self.now.rows.now self.now.area.now (self.now.last + 1) }
    {
        let mut work = [0u32; WORK_WORDS];
        let mut text = ArrayVec::new();
        let count = self.rows.len() / ROW_WORDS;
        for k in 0..count {
            self.put_class(&mut text, &mut work, k as u32);
        }
        text
    }
}
