//! Which records are tasks, and which files are awaited.

ghost use Rattle.std.specs.Prelude.{◌≡◌, ◌<◌, ◌&&◌, not, length};
ghost use Rattle.tl_plan.specs.Data.{files_after, is_task_now, table_step, tables_from, with_task};

use crate::job::Job;
use crate::outputs::{Outputs, await_all};
use tl_steps::{Seat, is_running};

/// Finds, from the last record to the first, which records are tasks, and which files are awaited by
/// them.
pub(crate) fn make_tables(jobs: &mut [Job], files: &mut [Outputs], seats: &[Seat])
    requires { length jobs.old ≡ length files.old }
    ensures { (jobs.new, files.new) ≡ tables_from seats.now 0 jobs.old files.old }
{
    for i in (0..jobs.len()).rev() {
        make_table_at(i, jobs, files, seats);
    }
}

// Finds whether the record of a number is a task, where this was found of the later ones.
fn make_table_at(n: usize, jobs: &mut [Job], files: &mut [Outputs], seats: &[Seat])
    requires job { n < length jobs.old }
    requires files { n < length files.old }
    ensures { (jobs.new, files.new) ≡ table_step seats.now n (jobs.old, files.old) }
{
    let job = &mut jobs[n];
    decide(job, &files[n], seats);
    await_inputs(job, files, seats);
}

// Finds whether the record, which makes these files, is a task.
fn decide(job: &mut Job, outputs: &Outputs, seats: &[Seat])
    ensures { job.new ≡ with_task (is_task_now seats.now job.old outputs.now) job.old }
{
    job.is_task = job.is_job && (!job.was_done || outputs.lacks(seats));
}

// The inputs of a task that isn't running are awaited.
fn await_inputs(job: &Job, files: &mut [Outputs], seats: &[Seat])
    ensures { files.new ≡ files_after seats.now job.now job.now.is_task files.old }
{
    if job.is_task && !is_running(seats, job.made) {
        await_all(files, job.inputs.as_slice());
    }
}
