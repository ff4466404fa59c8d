// What quote, admission, release, the call for all jobs and the calls on class tables answer and leave, and what that means (specs/), with the laws of
// that (proofs/): the contracts in `booking` and `classes` cite it, and the ledger reads its rules. There is no code here but the
// type of a job.
#![tactic(auto)]

use network::Request;

// A job of a job list: a circuit number, and what is asked for it.
#[derive(Clone, Copy, Debug, PartialEq, Eq)]
pub struct Job {
    pub number: u32,
    pub request: Request,
}
