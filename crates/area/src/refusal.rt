// Why a call is refused. A refusal's discriminant is document 01's number for it.

use network::NoRoute;

// Document 01's refusals, in the order of their numbers.
#[derive(Clone, Copy, Debug, PartialEq, Eq)]
pub enum Refusal {
    // Load: the area is too short, n is out of range, the word count is wrong, a link's field is out of range.
    AreaShort = 1,
    NodeCount = 2,
    WordCount = 3,
    LinkRange = 4,
    // Every call on a loaded area: it is too short or not well formed.
    NotWellFormed = 5,
    // Quote and admission: work memory or path buffer is too short, a number of the request is out of range, no usable
    // path exists, neither problem has a solution.
    WorkShort = 6,
    PathShort = 7,
    RequestRange = 8,
    NoPath = 9,
    NoSolution = 10,
    // Admission: the circuit's number is out of range or held, as many are held as may be.
    CircuitNumber = 11,
    CircuitsFull = 12,
    // Release: the number is not held.
    NotHeld = 13,
    // Listing and free units: the buffer is too short, no link has this number.
    NumbersShort = 14,
    NoSuchLink = 15,
    // The class call: the class is not below the row count.
    NoSuchClass = 16,
    // Link file: no trailer with the letters, the lengths do not agree, the table buffer is too short.
    NotSigned = 17,
    FileLength = 18,
    TableShort = 19,
    // Class table: the word count is wrong, a number is out of a request's ranges.
    ClassWords = 20,
    ClassRange = 21,
    // Load, after 4: the hold times are not one for each node, or one is out of range.
    HoldRange = 22,
    // All jobs in one call: the job list's word count is wrong, the answer buffer is too short.
    JobWords = 23,
    AnswersShort = 24,
}

impl From<Refusal> for u32 {
    ghost use Rattle.std.specs.Prelude.{◌≡◌};
    ghost use Rattle.area.specs.Refusals.{number};

    ghost from_gives = { λ e k. k ≡ number e };

    fn from(e: Refusal) -> u32 {
        e as u32
    }
}

// What a search found, as the calls that search refuse it.
impl From<NoRoute> for Refusal {
    ghost use Rattle.std.specs.Prelude.{◌≡◌};
    ghost use Rattle.area.specs.Refusals.{refusal_of};

    ghost from_gives = { λ e r. r ≡ refusal_of e };

    fn from(e: NoRoute) -> Refusal {
        match e {
            NoRoute::NoPath => Refusal::NoPath,
            NoRoute::NoSolution => Refusal::NoSolution,
        }
    }
}
