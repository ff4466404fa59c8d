// Document 01's worked cases (specs/Document01.antt), cases of bounds of 0 (specs/FreeLines.antt), of hold times
// (specs/HoldTimes.antt), of the steady circuit list (specs/SteadyList.antt), of the paper's table (specs/PaperLines.antt), of all
// jobs in one call (specs/OpeningJobs.antt) and of class tables (specs/ClassCases.antt), with the proofs that they hold
// (proofs/Worked.antt, and a file of the same name for each of the others). In the code stand the link words of document 01's two
// nets, the types of a case and a short form of a request, for the programs that load the nets and make the calls. There is no
// function here.
#![tactic(auto)]

pub use network::{Request, Terms};

// From, to, delay, cost and capacity of each link of net A.
pub const NET_A: [u32; 20] = [
    0, 1, 2, 5, 10, 1, 2, 2, 5, 10, 2, 3, 2, 5, 10, 0, 3, 9, 1, 10,
];

// The same of net B.
pub const NET_B: [u32; 20] = [1, 2, 0, 1, 5, 2, 1, 0, 1, 5, 1, 3, 1, 1, 5, 0, 1, 1, 1, 5];

// The hold times of their nodes: they hold nothing.
pub const NONE_HELD: [u32; 4] = [0, 0, 0, 0];

// The request of these numbers, in document 01's order: from, to, units, delay bound, cost bound and coefficient. It is a
// macro, since tables are constants.
#[macro_export]
macro_rules! asking {
    ($s:expr, $t:expr, $b:expr, $d:expr, $c:expr, $f:expr) => {
        $crate::Request {
            source: $s,
            target: $t,
            terms: $crate::Terms {
                units: $b,
                delay_bound: $d,
                cost_bound: $c,
                coefficient: $f,
            },
        }
    };
}

// What a case stands on: net A, net A after M8's admission, an area without links, net B.
#[derive(Clone, Copy, Debug, PartialEq, Eq)]
pub enum Ground {
    OnA,
    AfterM8,
    OnNone,
    OnB,
}

// The call of a case. An admission has a circuit number.
#[derive(Clone, Copy, Debug, PartialEq, Eq)]
pub enum Asked {
    Quote(Request),
    Admission(u32, Request),
}

// What a program needs to make a case's call: the case's number in document 01, what it stands on, and the call.
#[derive(Clone, Copy, Debug, PartialEq, Eq)]
pub struct Row {
    pub number: u32,
    pub stands: Ground,
    pub asked: Asked,
}
