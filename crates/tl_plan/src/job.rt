//! What is kept of an accepted record.

ghost use Rattle.std.specs.Prelude.{◌≡◌, map};
ghost use Rattle.tl_model.specs.Past.{act_with};
ghost use Rattle.tl_plan.specs.Data.{job_after};

use tl_model::Act;
use tl_steps::does;
use tl_types::{FileId, Items, RecordId};

/// An accepted put or job.
#[derive(Debug, Drop)]
pub struct Job {
    pub made: RecordId,
    /// It is a job and no put.
    pub is_job: bool,
    pub inputs: Items<FileId>,
    pub was_done: bool,
    pub is_task: bool,
}

/// The records after an act. Which are tasks is found anew after each.
pub(crate) fn note_jobs<T>(jobs: &mut [Job], act: &Act<T>)
    ensures { jobs.new ≡ map (job_after (act_with (λ _. tt) act.now)) jobs.old }
{
    for job in jobs.iter_mut() {
        note_job(job, act);
    }
}

// The record after an act.
fn note_job<T>(job: &mut Job, act: &Act<T>)
    ensures { job.new ≡ job_after (act_with (λ _. tt) act.now) job.old }
{
    job.was_done = does(job.made, act) || job.was_done;
    job.is_task = false;
}
