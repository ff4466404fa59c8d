// The list of calls, and each of them made and its line put into a text: a run leaves the area that the history of its calls
// leaves, and its text is that of the history's answers.
ghost use Rattle.std.specs.Prelude.{◌≡◌, ◌+◌, ◌*◌, ◌<◌, ◌≤◌, ◌++◌, ◌&&◌, length};
ghost use Rattle.arrayvec.specs.ArrayVec.{array_vec_len};
ghost use Rattle.network.specs.Limits.{path_words};
ghost use Rattle.area.specs.Refusals.{numbered};
ghost use Rattle.rules.specs.AdmitJobs.{answer_words};
ghost use Rattle.ledger.specs.Entries.{releasing, admitting_jobs};
ghost use Rattle.ledger.specs.History.{measured, jobs_of, given_to, area_after, area_at_end};
ghost use Rattle.call_list.specs.declared.Row.TheVariants.{Asks, Opens};
ghost use Rattle.call_list.specs.Calls.{jobs, most_answers, row_count, row_at, is_quote, work_filler, buffer_filler, calling, lent, call_at, calls};
ghost use Rattle.history.specs.Lines.{answer_bytes, line_bytes, text_bytes, call_name, name_text, given_text, lent_text, row_text, run_text};

use area::Refusal;
use arrayvec::ArrayVec;
use booking::calls;
use booking::jobs::{ANSWER_WORDS, admit_jobs};
use booking::quote::quote;
use call_list::Lent::{Enough, ShortAnswers, ShortPath, ShortWork};
use call_list::Row::{Asks, Opens, Releases};
use call_list::{JOBS, Lent, MOST_ANSWERS, ROW_COUNT, Row};
use cases::Asked::{Admission, Quote};
use cases::{Asked, asking};
use network::limits::{PATH_WORDS, WORK_WORDS};

// The most bytes of a line: its row's number and name have 20, and the longest answer is that of all jobs in one call.
const LINE_BYTES: usize = 20 + 11 * MOST_ANSWERS + 23;

// So a text has room for the lines of the whole list.
const TEXT_BYTES: usize = ROW_COUNT as usize * LINE_BYTES;

pub(crate) type Text = ArrayVec<u8, TEXT_BYTES>;

// The list of calls.
const ROWS: [Row; ROW_COUNT as usize] = [
    Asks(Quote(asking!(0, 3, 1, 8, 20, 8)), Enough),
    Asks(Admission(7, asking!(0, 3, 4, 8, 20, 8)), Enough),
    Asks(Quote(asking!(0, 3, 6, 8, 20, 8)), Enough),
    Asks(Quote(asking!(0, 3, 7, 8, 20, 8)), Enough),
    Asks(Admission(7, asking!(0, 3, 1, 8, 20, 8)), Enough),
    Asks(Admission(0, asking!(0, 3, 1, 8, 20, 8)), Enough),
    Asks(Admission(8, asking!(0, 3, 7, 9, 20, 8)), Enough),
    Asks(Quote(asking!(0, 3, 7, 9, 20, 8)), Enough),
    Asks(Admission(9, asking!(0, 3, 6, 8, 20, 8)), Enough),
    Asks(Quote(asking!(0, 3, 1, 8, 20, 8)), Enough),
    Releases(7),
    Asks(Quote(asking!(0, 3, 4, 8, 20, 8)), Enough),
    Releases(7),
    Asks(Admission(7, asking!(0, 3, 2, 8, 15, 8)), Enough),
    Asks(Quote(asking!(0, 3, 3, 8, 20, 8)), Enough),
    Asks(Admission(10, asking!(0, 3, 1, 8, 20, 8)), ShortWork),
    Asks(Quote(asking!(0, 3, 1, 8, 20, 8)), ShortPath),
    Asks(Quote(asking!(0, 0, 1, 8, 20, 8)), Enough),
    Asks(Admission(65535, asking!(1, 3, 2, 4, 10, 8)), Enough),
    Asks(Quote(asking!(0, 3, 1, 8, 20, 8)), Enough),
    Asks(Quote(asking!(1, 2, 1, 8, 20, 8)), Enough),
    Releases(8),
    Asks(Quote(asking!(0, 3, 10, 9, 1, 1)), Enough),
    Asks(Admission(8, asking!(0, 3, 10, 9, 1, 1)), Enough),
    Asks(Admission(65536, asking!(0, 3, 1, 9, 1, 1)), Enough),
    Releases(9),
    Opens(Enough),
    Asks(Quote(asking!(0, 1, 2, 2, 5, 1)), Enough),
    Opens(ShortWork),
    Opens(ShortAnswers),
];

// A space and the name of the row's call.
fn name(row: Row) -> &'static [u8]
    ensures value { result.now ≡ call_name row }
    ensures most { length result.now ≤ 10 }
{
    match row {
        Asks(Quote(_), _) => b" quote",
        Asks(Admission(_, _), _) => b" admission",
        Releases(_) => b" release",
        Opens(_) => b" jobs",
    }
}

// The row's number and the name of its call.
#[tactic(auto, unfolding(crate::specs::Lines::name_text))]
fn put_name(text: &mut Text, k: u32, row: Row)
    requires { array_vec_len text.old + 20 ≤ text_bytes }
    ensures text { text.new.items ≡ text.old.items ++ name_text k row }
    ensures most { array_vec_len text.new ≤ array_vec_len text.old + 20 }
{
    text::put_number(text, k);
    text::put(text, name(row));
}

// Makes the call of a request with this work memory and path buffer, and puts what it answered. It leaves the area as the
// history has it.
fn put_call(area: &mut [u32], work: &mut [u32], path: &mut [u32], text: &mut Text, asked: Asked)
    requires { (array_vec_len text.old + answer_bytes ≤ text_bytes) × (length path.old ≤ path_words) }
    ensures area { area.new ≡ area_after area.old (measured (calling asked work.old path.old)) }
    ensures text { text.new.items ≡ text.old.items ++ given_text (given_to area.old (calling asked work.old path.old)) }
    ensures most { array_vec_len text.new ≤ array_vec_len text.old + answer_bytes }
{
    let answer = match asked {
        Quote(request) => quote(area, work, path, request),
        Admission(circuit, request) => calls::admit(area, work, path, circuit, request),
    };
    answer_lines::put_routed(text, answer, path);
}

// Makes the call of a release, and puts what it answered. It leaves the area as the history has it.
fn put_release(area: &mut [u32], text: &mut Text, circuit: u32)
    requires { array_vec_len text.old + answer_bytes ≤ text_bytes }
    ensures area { area.new ≡ area_after area.old (releasing circuit) }
    ensures text { text.new.items ≡ text.old.items ++ given_text (given_to area.old (releasing circuit)) }
    ensures most { array_vec_len text.new ≤ array_vec_len text.old + answer_bytes }
{
    let released = calls::release(area, circuit);
    answer_lines::put_answer(text, released);
}

// How many words answer the jobs: a call that is refused answers none.
fn words_answered(answer: Result<u32, Refusal>) -> usize
    ensures { result ≡ answer_words * jobs_of (numbered answer) }
{
    match answer {
        Ok(jobs) => ANSWER_WORDS * jobs as usize,
        Err(_) => 0,
    }
}

// Makes the call for all jobs with this work memory and answer buffer, and puts what it answered. It leaves the area as the
// history has it.
#[tactic(auto, unfolding(call_list::specs::Calls::jobs))]
fn put_jobs(area: &mut [u32], work: &mut [u32], answers: &mut [u32], text: &mut Text)
    requires { (array_vec_len text.old + answer_bytes ≤ text_bytes) × (length answers.old ≤ most_answers) }
    ensures area { area.new ≡ area_after area.old (measured (admitting_jobs work.old jobs answers.old)) }
    ensures text { text.new.items ≡ text.old.items ++ given_text (given_to area.old (admitting_jobs work.old jobs answers.old)) }
    ensures most { array_vec_len text.new ≤ array_vec_len text.old + answer_bytes }
{
    let answer = admit_jobs(area, work, &JOBS, answers);
    let words = words_answered(answer).min(answers.len());
    answer_lines::put_jobs(text, answer, &answers[..words]);
}

// Every word of work memory before a call, another at each call and in each run. In the first run a search that trusts
// it would take it for nodes, links and small weights.
#[tactic(auto, unfolding(call_list::specs::Calls::work_filler))]
fn work_filler(struck: bool, row: u32) -> u32
    ensures { result ≡ work_filler struck row }
{
    if struck { 4294967295 - row } else { row }
}

// Every word of a path buffer or an answer buffer before a call.
#[tactic(auto, unfolding(call_list::specs::Calls::buffer_filler))]
fn buffer_filler(struck: bool) -> u32
    ensures { result ≡ buffer_filler struck }
{
    if struck { 98 } else { 99 }
}

// Fills work memory and path buffer, and makes the call of row `k` with as many of their words as it is lent.
fn put_lent(struck: bool, area: &mut [u32], text: &mut Text, k: u32, asked: Asked, memory: Lent)
    requires { array_vec_len text.old + answer_bytes ≤ text_bytes }
    ensures area { area.new ≡ area_after area.old (measured (lent struck k (Asks asked memory))) }
    ensures text { text.new.items ≡ text.old.items ++ given_text (given_to area.old (lent struck k (Asks asked memory))) }
    ensures most { array_vec_len text.new ≤ array_vec_len text.old + answer_bytes }
{
    let mut work: [u32; WORK_WORDS] = [work_filler(struck, k); WORK_WORDS];
    let mut path: [u32; PATH_WORDS] = [buffer_filler(struck); PATH_WORDS];
    let w = memory.work_lent();
    let p = memory.path_lent();
    put_call(area, &mut work[..w], &mut path[..p], text, asked);
}

// Fills work memory and answer buffer, and makes the call for all jobs of row `k` with as many of their words as it is lent.
fn put_opened(struck: bool, area: &mut [u32], text: &mut Text, k: u32, memory: Lent)
    requires { array_vec_len text.old + answer_bytes ≤ text_bytes }
    ensures area { area.new ≡ area_after area.old (measured (lent struck k (Opens memory))) }
    ensures text { text.new.items ≡ text.old.items ++ given_text (given_to area.old (lent struck k (Opens memory))) }
    ensures most { array_vec_len text.new ≤ array_vec_len text.old + answer_bytes }
{
    let mut work: [u32; WORK_WORDS] = [work_filler(struck, k); WORK_WORDS];
    let mut answers: [u32; MOST_ANSWERS] = [buffer_filler(struck); MOST_ANSWERS];
    let w = memory.work_lent();
    let n = memory.answers_lent();
    put_jobs(area, &mut work[..w], &mut answers[..n], text);
}

// Puts the line of row `k`, and makes its call.
#[tactic(auto, unfolding(call_list::specs::Calls::lent, crate::specs::Lines::lent_text))]
fn put_row(struck: bool, area: &mut [u32], text: &mut Text, k: u32, row: Row)
    requires { array_vec_len text.old + line_bytes ≤ text_bytes }
    ensures area { area.new ≡ area_after area.old (measured (lent struck k row)) }
    ensures text { text.new.items ≡ text.old.items ++ lent_text struck area.old k row }
    ensures most { array_vec_len text.new ≤ array_vec_len text.old + line_bytes }
{
    put_name(text, k, row);
    match row {
        Asks(asked, memory) => put_lent(struck, area, text, k, asked, memory),
        Releases(circuit) => put_release(area, text, circuit),
        Opens(memory) => put_opened(struck, area, text, k, memory),
    }
}

// Row `k`. The loop over the list counts its rows.
#[tactic(auto, unfolding(call_list::specs::Calls::rows))]
fn row_at(k: u32) -> Row
    requires { k < row_count }
    ensures { result ≡ row_at k }
{
    ROWS[k as usize]
}

// Whether a row is passed over: a quote is, in the run where quotes are struck.
fn is_struck(struck: bool, row: Row) -> bool
    ensures { result ≡ (struck && is_quote row) }
{
    struck && row.is_quote()
}

// The call of row `k` and its line, unless it is a quote and quotes are struck.
fn unless_struck(struck: bool, area: &mut [u32], text: &mut Text, k: u32)
    requires { (k < row_count) × (array_vec_len text.old + line_bytes ≤ text_bytes) }
    ensures area { area.new ≡ area_at_end area.old (call_at struck k) }
    ensures text { text.new.items ≡ text.old.items ++ row_text struck area.old k }
    ensures most { array_vec_len text.new ≤ array_vec_len text.old + line_bytes }
{
    let row = row_at(k);
    if is_struck(struck, row) {
        return;
    }
    put_row(struck, area, text, k, row);
}

// The calls of the whole list; answers their lines. A row goes by its number, with which its line begins.
pub(crate) fn every_call(struck: bool, area: &mut [u32]) -> Text
    ensures area { area.new ≡ area_at_end area.old (calls struck) }
    ensures text { result.items ≡ run_text struck area.old }
{
    let mut text = Text::new();
    for k in 0..ROW_COUNT {
        unless_struck(struck, area, &mut text, k);
    }
    text
}
