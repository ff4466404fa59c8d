// Quote, admission, release and all jobs in one call for C.
ghost use Rattle.std.specs.Prelude.{◌≡◌, length};
ghost use Rattle.network.specs.Reduce.{asking};
ghost use Rattle.rules.specs.Replies.{answer_of, path_after};
ghost use Rattle.rules.specs.Calls.{quote, admission, booked, release, cleared};
ghost use Rattle.rules.specs.AdmitJobs.{admit_jobs, jobs_booked, jobs_answered};
ghost use Rattle.area.specs.Reads.{count_of};
ghost use Rattle.line.specs.Codes.{code, words_after, grant_words, value_words};
ghost use Rattle.line.specs.Meaning.{QuoteTells, AdmissionTells, ReleaseTells, JobsTell};

use crate::told::{code, tell};
use booking::quote::quote;
use booking::{calls, jobs};
use network::{Request, Terms};

// The request of the numbers, in the order in which C gives them.
fn request(
    s: u32,
    t: u32,
    units: u32,
    delay_bound: u32,
    cost_bound: u32,
    coefficient: u32,
) -> Request
    ensures { result ≡ asking s t units delay_bound cost_bound coefficient }
{
    Request {
        source: s,
        target: t,
        terms: Terms {
            units,
            delay_bound,
            cost_bound,
            coefficient,
        },
    }
}

// 5, 6, 7, 8, 9 and 10; else 0, problem, delay, cost and links in `answer` and the path's links in `path`. Work memory is
// open after.
#[unsafe(no_mangle)]
pub extern "C" fn line_quote(
    area: &[u32],
    work: &mut [u32],
    path: &mut [u32],
    s: u32,
    t: u32,
    units: u32,
    delay_bound: u32,
    cost_bound: u32,
    coefficient: u32,
    answer: &mut [u32; 4],
) -> u32
    ensures code { result ≡ code (answer_of (quote area.now (length work.old) (length path.old) (asking s t units delay_bound cost_bound coefficient))) }
    ensures answer { answer.new ≡ words_after grant_words (answer_of (quote area.now (length work.old) (length path.old) (asking s t units delay_bound cost_bound coefficient))) answer.old }
    ensures path { path.new ≡ path_after (quote area.now (length work.old) (length path.old) (asking s t units delay_bound cost_bound coefficient)) path.old }
    ensures means { QuoteTells area.now (length work.old) path.old answer.old (asking s t units delay_bound cost_bound coefficient) result path.new answer.new }
{
    let r = request(s, t, units, delay_bound, cost_bound, coefficient);
    tell(quote(area, work, path, r), answer)
}

// 5, 6, 7, 8, 11, 12, 9 and 10; else as a quote, and the circuit is added to the area. Work memory is open after.
#[unsafe(no_mangle)]
pub extern "C" fn line_admit(
    area: &mut [u32],
    work: &mut [u32],
    path: &mut [u32],
    circuit: u32,
    s: u32,
    t: u32,
    units: u32,
    delay_bound: u32,
    cost_bound: u32,
    coefficient: u32,
    answer: &mut [u32; 4],
) -> u32
    ensures code { result ≡ code (answer_of (admission area.old (length work.old) (length path.old) circuit (asking s t units delay_bound cost_bound coefficient))) }
    ensures answer { answer.new ≡ words_after grant_words (answer_of (admission area.old (length work.old) (length path.old) circuit (asking s t units delay_bound cost_bound coefficient))) answer.old }
    ensures path { path.new ≡ path_after (admission area.old (length work.old) (length path.old) circuit (asking s t units delay_bound cost_bound coefficient)) path.old }
    ensures area { area.new ≡ booked area.old circuit units (admission area.old (length work.old) (length path.old) circuit (asking s t units delay_bound cost_bound coefficient)) }
    ensures means { AdmissionTells area.old (length work.old) path.old answer.old circuit (asking s t units delay_bound cost_bound coefficient) result path.new answer.new area.new }
{
    let r = request(s, t, units, delay_bound, cost_bound, coefficient);
    tell(calls::admit(area, work, path, circuit, r), answer)
}

// 5 and 13; else 0, and the circuit with this number goes.
#[unsafe(no_mangle)]
pub extern "C" fn line_release(area: &mut [u32], circuit: u32) -> u32
    ensures code { result ≡ code (release area.old circuit) }
    ensures area { area.new ≡ cleared area.old circuit (release area.old circuit) }
    ensures means { ReleaseTells area.old circuit result area.new }
{
    code(calls::release(area, circuit))
}

// 5, 6, 23 and 24; else 0, the number of jobs in `answer`, and 36 words in `answers` for each job; the granted ones' circuits are
// added to the area. Work memory is open after.
#[unsafe(no_mangle)]
pub extern "C" fn line_admit_jobs(
    area: &mut [u32],
    work: &mut [u32],
    jobs: &[u32],
    answers: &mut [u32],
    answer: &mut [u32; 1],
) -> u32
    ensures code { result ≡ code (count_of (admit_jobs area.old (length work.old) jobs.now (length answers.old))) }
    ensures answer { answer.new ≡ words_after value_words (count_of (admit_jobs area.old (length work.old) jobs.now (length answers.old))) answer.old }
    ensures answers { answers.new ≡ jobs_answered (admit_jobs area.old (length work.old) jobs.now (length answers.old)) answers.old }
    ensures area { area.new ≡ jobs_booked area.old (admit_jobs area.old (length work.old) jobs.now (length answers.old)) }
    ensures means { JobsTell area.old (length work.old) jobs.now answers.old answer.old result answers.new answer.new area.new }
{
    tell(jobs::admit_jobs(area, work, jobs, answers), answer)
}
