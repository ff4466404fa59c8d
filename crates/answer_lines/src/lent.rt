// The same texts in a lent slice: each function puts its bytes over what stands there from a place on, and answers the place
// behind them, as those of `text::lent` do. A caller that has no room for a text of its own calls these. A refusal comes as its
// number, and any number is put; a caller with a `Refusal` writes `.map_err(Into::into)`. The room that they require a caller knows
// by counting, eleven bytes for a field; the programs make their texts by value and call none of these.
ghost use Rattle.std.specs.Prelude.{◌≡◌, ◌+◌, ◌*◌, ◌≤◌, [], ◌∷◌, ◌++◌, length};
ghost use Rattle.std.proofs.lemmas.List.Edits.{sets};
ghost use Rattle.text_format.specs.Fields.{fields};
ghost use Rattle.answer_lines.specs.Answers.{reply, line_text, refused_text, path_text, answer_text, routed_text, released_text, loading_text};

use network::Grant;

// A field for each of these numbers, and the newline.
#[tactic(auto, unfolding(crate::specs::Answers::line_text))]
fn put_line(text: &mut [u8], at: usize, numbers: &[u32]) -> usize
    requires { at + 11 * length numbers.now + 1 ≤ length text.old }
    ensures end { result ≡ at + length (line_text numbers.now) }
    ensures most { result ≤ at + 11 * length numbers.now + 1 }
    ensures text { text.new ≡ sets text.old at (line_text numbers.now) }
{
    let end = text::lent::put_fields(text, at, numbers);
    text::lent::put(text, end, b"\n")
}

// The links of a path that stands in the first of these words: as many as there are links. A caller lends room for all of the
// words, and `put_granted` leaves as much.
pub fn put_path(text: &mut [u8], at: usize, words: &[u32], links: u32) -> usize
    requires { at + 11 * length words.now + 1 ≤ length text.old }
    ensures end { result ≡ at + length (path_text links words.now) }
    ensures most { result ≤ at + 11 * length words.now + 1 }
    ensures text { text.new ≡ sets text.old at (path_text links words.now) }
{
    put_line(text, at, &words[..words.len().min(links as usize)])
}

// 0 and the refusal's number.
pub fn put_refused(text: &mut [u8], at: usize, k: u32) -> usize
    requires { at + 23 ≤ length text.old }
    ensures end { result ≡ at + length (refused_text k) }
    ensures most { result ≤ at + 23 }
    ensures text { text.new ≡ sets text.old at (refused_text k) }
{
    put_line(text, at, &[0, k])
}

// Problem, delay, cost and the path: what is granted, by numbers. Any number stands for the problem.
pub fn put_granted(
    text: &mut [u8],
    at: usize,
    problem: u32,
    delay: u32,
    cost: u32,
    links: u32,
    path: &[u32],
) -> usize
    requires { at + 11 * length path.now + 34 ≤ length text.old }
    ensures end { result ≡ at + length (fields (problem ∷ delay ∷ cost ∷ []) ++ path_text links path.now) }
    ensures most { result ≤ at + 11 * length path.now + 34 }
    ensures text { text.new ≡ sets text.old at (fields (problem ∷ delay ∷ cost ∷ []) ++ path_text links path.now) }
{
    let end = text::lent::put_fields(text, at, &[problem, delay, cost]);
    put_path(text, end, path, links)
}

// What a quote or an admission answered, with the words of its path buffer. For the 31 words of a path 375 bytes are enough.
#[tactic(auto, unfolding(crate::specs::Answers::routed_text, crate::specs::Answers::grant_text))]
pub fn put_answer(text: &mut [u8], at: usize, answer: Result<Grant, u32>, path: &[u32]) -> usize
    requires { at + 11 * length path.now + 34 ≤ length text.old }
    ensures end { result ≡ at + length (routed_text (reply answer) path.now) }
    ensures most { result ≤ at + 11 * length path.now + 34 }
    ensures text { text.new ≡ sets text.old at (routed_text (reply answer) path.now) }
{
    match answer {
        Err(refusal) => put_refused(text, at, refusal),
        Ok(g) => put_granted(text, at, g.problem.into(), g.delay, g.cost, g.links, path),
    }
}

// What a release answered.
#[tactic(auto, unfolding(crate::specs::Answers::answer_text))]
pub fn put_release(text: &mut [u8], at: usize, answer: Result<(), u32>) -> usize
    requires { at + 23 ≤ length text.old }
    ensures end { result ≡ at + length (answer_text (λ _. released_text) (reply answer)) }
    ensures most { result ≤ at + 23 }
    ensures text { text.new ≡ sets text.old at (answer_text (λ _. released_text) (reply answer)) }
{
    match answer {
        Err(number) => put_refused(text, at, number),
        Ok(()) => text::lent::put(text, at, b" released\n"),
    }
}

// What a listing or a question for free units answered.
#[tactic(auto, unfolding(crate::specs::Answers::answer_text))]
pub fn put_value(text: &mut [u8], at: usize, value: Result<u32, u32>) -> usize
    requires { at + 23 ≤ length text.old }
    ensures end { result ≡ at + length (answer_text (λ v. line_text (v ∷ [])) (reply value)) }
    ensures most { result ≤ at + 23 }
    ensures text { text.new ≡ sets text.old at (answer_text (λ v. line_text (v ∷ [])) (reply value)) }
{
    match value {
        Err(k) => put_refused(text, at, k),
        Ok(v) => put_line(text, at, &[v]),
    }
}

// What a load answered, as a line of its own. 13 bytes are enough.
#[tactic(auto, unfolding(crate::specs::Answers::loading_text), using(text::proofs::Behind::put_behind))]
pub fn put_loading(text: &mut [u8], at: usize, loading: Result<(), u32>) -> usize
    requires { at + 13 ≤ length text.old }
    ensures end { result ≡ at + length (loading_text (reply loading)) }
    ensures most { result ≤ at + 13 }
    ensures text { text.new ≡ sets text.old at (loading_text (reply loading)) }
{
    match loading {
        Err(k) => {
            let end = text::lent::put(text, at, b"0");
            put_line(text, end, &[k])
        }
        Ok(()) => text::lent::put(text, at, b"loaded\n"),
    }
}
