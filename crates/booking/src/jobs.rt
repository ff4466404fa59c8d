// All jobs in one call (Req 06), as a station opens.
ghost use Rattle.std.specs.Prelude.{◌≡◌, ◌<◌, true, ℕ, length, get_or};
ghost use Rattle.area.specs.Formed.{well_formed};
ghost use Rattle.area.specs.FreeIn.{free_in};
ghost use Rattle.area.specs.Reads.{count_of};
ghost use Rattle.area.specs.Refusals.{numbered};
ghost use Rattle.rules.specs.Replies.{PathReply, answer_of, path_after};
ghost use Rattle.rules.specs.Calls.{admission, booked};
ghost use Rattle.rules.specs.Jobs.{job_at, job_count};
ghost use Rattle.rules.specs.AdmitJobs.{answer_words, admit_job, job_booked, head_words, job_answer, jobs_checked, admit_jobs, jobs_answered, jobs_booked, JobsMean};

use crate::calls::admit_formed;
use area::Refusal;
use network::limits::{MOST_LINKS, PATH_WORDS, WORK_WORDS};
use network::{Grant, Request, Terms};
use rules::Job;
use station::layout;

// The words of a job, the most jobs, the words of a full job list, and those that answer a job: the names of `rules` `Jobs` and
// `AdmitJobs`.
pub const JOB_WORDS: usize = 7;

pub const MOST_JOBS: usize = 64;

pub const JOB_LIST_WORDS: usize = JOB_WORDS * MOST_JOBS;

pub const ANSWER_WORDS: usize = 36;

// Where among a job's answer words those of its path begin.
const PATH_AT: usize = ANSWER_WORDS - PATH_WORDS;

// The first of 6, 23 and 24 that applies, else how many jobs there are. `work` and `answers` are the lengths of work memory and
// answer buffer.
fn check_jobs(work: usize, jobs: &[u32], answers: usize) -> Result<usize, Refusal>
    ensures { numbered result ≡ jobs_checked work jobs.now answers }
{
    if work < WORK_WORDS {
        return Err(Refusal::WorkShort);
    }
    if jobs.len() % JOB_WORDS != 0 || JOB_LIST_WORDS < jobs.len() {
        return Err(Refusal::JobWords);
    }
    let count = jobs.len() / JOB_WORDS;
    if answers < ANSWER_WORDS * count {
        return Err(Refusal::AnswersShort);
    }
    Ok(count)
}

// Job `k`. The call has counted the jobs.
fn job(jobs: &[u32], k: usize) -> Job
    requires { k < job_count jobs.now }
    ensures { result ≡ job_at jobs.now k }
{
    let at = JOB_WORDS * k;
    Job {
        number: jobs[at],
        request: Request {
            source: jobs[at + 1],
            target: jobs[at + 2],
            terms: Terms {
                units: jobs[at + 3],
                delay_bound: jobs[at + 4],
                cost_bound: jobs[at + 5],
                coefficient: jobs[at + 6],
            },
        },
    }
}

// The words that say what an admission answered, in front of the path's: the refusal's number, or 0, problem, delay, cost and l.
fn head_words(reply: Result<Grant, Refusal>) -> [u32; PATH_AT]
    ensures { (a : PathReply) → numbered reply ≡ answer_of a → result ≡ head_words a }
{
    match reply {
        Ok(grant) => [
            0,
            grant.problem.into(),
            grant.delay,
            grant.cost,
            grant.links,
        ],
        Err(refusal) => [refusal.into(), 0, 0, 0, 0],
    }
}

// Admits a job on a well-formed area with these free units, and keeps the free units up.
fn admit_next(
    area: &mut [u32],
    free: &mut [u32; MOST_LINKS],
    work: &mut [u32],
    path: &mut [u32],
    job: Job,
) -> Result<Grant, Refusal>
    requires formed { well_formed area.old ≡ true }
    requires units { (i : ℕ) → get_or free.old i 0 ≡ free_in area.old i }
    ensures answer { numbered result ≡ answer_of (admission area.old (length work.old) (length path.old) job.number job.request) }
    ensures path { path.new ≡ path_after (admission area.old (length work.old) (length path.old) job.number job.request) path.old }
    ensures area { area.new ≡ booked area.old job.number job.request.terms.units (admission area.old (length work.old) (length path.old) job.number job.request) }
    ensures formed { well_formed area.new ≡ true }
    ensures units { (i : ℕ) → get_or free.new i 0 ≡ free_in area.new i }
{
    let grant = admit_formed(area, free, work, path, job.number, job.request)?;
    let links = layout::part(path, 0, grant.links as usize);
    station::take_units(free, job.request.terms.units, links);
    Ok(grant)
}

// The same, with its answer in the job's 36 words.
fn admit_job(
    area: &mut [u32],
    free: &mut [u32; MOST_LINKS],
    work: &mut [u32],
    job: Job,
    answer: &mut [u32],
)
    requires formed { well_formed area.old ≡ true }
    requires units { (i : ℕ) → get_or free.old i 0 ≡ free_in area.old i }
    requires room { length answer.old ≡ answer_words }
    ensures answer { answer.new ≡ job_answer (admit_job area.old (length work.old) job) }
    ensures area { area.new ≡ job_booked area.old (admit_job area.old (length work.old) job) }
    ensures formed { well_formed area.new ≡ true }
    ensures units { (i : ℕ) → get_or free.new i 0 ≡ free_in area.new i }
{
    let (front, path) = answer.split_at_mut(PATH_AT);
    path.fill(0);
    let reply = admit_next(area, free, work, path, job);
    front.copy_from_slice(&head_words(reply));
}

// 5, 6, 23 and 24 in this order; else how many jobs there are, and each is admitted as `calls::admit` would admit it with a path
// buffer of 31 words, on the area that the job before it left. 36 words of `answers` for each job say what it was answered: the
// refusal's number or 0, problem, delay, cost, l and the path's words, and 0 in each word that is not used. The words past the
// last job's keep theirs. Work memory is open after.
// The whole area is checked once: an admission leaves it well formed, and takes its units from those that were free.
// `means` says of this answer, this buffer and this area what Req 06 says: the first rule that applies refuses and changes nothing,
// and else each job's reply is one that the rules of an admission allow where it comes.
pub fn admit_jobs(
    area: &mut [u32],
    work: &mut [u32],
    jobs: &[u32],
    answers: &mut [u32],
) -> Result<u32, Refusal>
    ensures answer { numbered result ≡ count_of (admit_jobs area.old (length work.old) jobs.now (length answers.old)) }
    ensures answers { answers.new ≡ jobs_answered (admit_jobs area.old (length work.old) jobs.now (length answers.old)) answers.old }
    ensures area { area.new ≡ jobs_booked area.old (admit_jobs area.old (length work.old) jobs.now (length answers.old)) }
    ensures means { JobsMean area.old (length work.old) jobs.now answers.old (numbered result) answers.new area.new }
{
    let mut free = station::free_in(area)?;
    let count = check_jobs(work.len(), jobs, answers.len())?;
    for k in 0..count {
        let at = ANSWER_WORDS * k;
        let answer = &mut answers[at..at + ANSWER_WORDS];
        admit_job(area, &mut free, work, job(jobs, k), answer);
    }
    Ok(count as u32)
}
