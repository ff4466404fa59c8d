// The list of calls that the program `history` makes: its rows as a history of the room `ledger` (specs/Calls.antt), its
// answers by hand (specs/Answers.antt), and the proof that both runs give them (proofs/Answers.antt). In the code stand the
// types of a row, the jobs of the call for all jobs, and what each call is lent: `history` makes the calls, in two runs, and nothing
// else uses it.
#![tactic(auto)]

ghost use Rattle.std.specs.Prelude.{◌≡◌, ◌≤◌};
ghost use Rattle.network.specs.Limits.{path_words, work_words};
ghost use Rattle.call_list.specs.Calls.{most_answers, is_quote, work_lent, path_lent, answers_lent};

use cases::Asked;
use network::limits::{PATH_WORDS, WORK_WORDS};

// The four jobs of the call for all jobs, seven words each: circuit number, s, t, units, D, C, coefficient.
pub const JOBS: [u32; 28] = [
    21, 0, 3, 6, 8, 20, 8, 22, 0, 3, 1, 8, 20, 8, 21, 0, 1, 1, 2, 5, 1, 22, 0, 1, 1, 2, 5, 1,
];

// How many words answer them: 36 for each.
const JOBS_ANSWER: usize = 144;

// The longest answer buffer that is lent: five words more than the jobs need.
pub const MOST_ANSWERS: usize = JOBS_ANSWER + 5;

// How many rows the list has.
pub const ROW_COUNT: u32 = 30;

// How much a call is lent. The last three are too little: 8 words of work memory, a path buffer of 30, and an answer buffer of one
// word fewer than the jobs need.
#[derive(Clone, Copy, Debug, PartialEq, Eq)]
pub enum Lent {
    Enough,
    ShortWork,
    ShortPath,
    ShortAnswers,
}

impl Lent {
    // How many words of work memory are lent.
    pub fn work_lent(self) -> usize
        ensures value { result ≡ work_lent self }
        ensures most { result ≤ work_words }
    {
        match self {
            Lent::ShortWork => 8,
            _ => WORK_WORDS,
        }
    }

    // How long the path buffer is that is lent.
    pub fn path_lent(self) -> usize
        ensures value { result ≡ path_lent self }
        ensures most { result ≤ path_words }
    {
        match self {
            Lent::ShortPath => 30,
            _ => PATH_WORDS,
        }
    }

    // How long the answer buffer is that is lent.
    pub fn answers_lent(self) -> usize
        ensures value { result ≡ answers_lent self }
        ensures most { result ≤ most_answers }
    {
        match self {
            Lent::ShortAnswers => JOBS_ANSWER - 1,
            _ => MOST_ANSWERS,
        }
    }
}

// A row of the list: a request, as a quote or an admission, with what it is lent; the release of a circuit, which is lent
// nothing; or all jobs in one call, with what it is lent.
#[derive(Clone, Copy, Debug, PartialEq, Eq)]
pub enum Row {
    Asks(Asked, Lent),
    Releases(u32),
    Opens(Lent),
}

impl Row {
    // Whether the call is a quote.
    pub fn is_quote(self) -> bool
        ensures { result ≡ is_quote self }
    {
        matches!(self, Row::Asks(Asked::Quote(_), _))
    }
}
