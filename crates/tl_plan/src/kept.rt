//! A record with its files.

ghost use Rattle.std.specs.Prelude.{◌≡◌, IfOk};
ghost use Rattle.tl_plan.specs.Standing.{kept_of};

use crate::job::Job;
use crate::outputs::Outputs;
use std::alloc::Global;
use tl_model::Record;
use tl_types::{Items, NoMemory};

/// A record with its files.
#[derive(Debug, Drop)]
pub struct Kept {
    pub job: Job,
    pub outputs: Outputs,
}

/// A record as it is when it is accepted.
pub(crate) fn kept_of(alloc: Global, rec: &Record) -> Result<Kept, NoMemory>
    ensures { IfOk result (λ kept. kept ≡ kept_of rec.now) }
{
    match rec {
        Record::Put { id } => Ok(Kept {
            job: Job {
                made: *id,
                is_job: false,
                inputs: Items::from_vec(Vec::new(alloc)),
                was_done: false,
                is_task: false,
            },
            outputs: Outputs::new(alloc, *id, 1)?,
        }),
        Record::Job {
            id,
            inputs,
            outputs,
            ..
        } => Ok(Kept {
            job: Job {
                made: *id,
                is_job: true,
                inputs: Items::from_vec(inputs.as_slice().to_vec(alloc)?),
                was_done: false,
                is_task: false,
            },
            outputs: Outputs::new(alloc, *id, *outputs)?,
        }),
    }
}
