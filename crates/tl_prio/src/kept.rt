//! What is kept of an accepted record.

ghost use Rattle.std.specs.Prelude.{◌≡◌, IfOk, map};
ghost use Rattle.tl_model.specs.Past.{act_with};
ghost use Rattle.tl_prio.specs.Data.{kept_after};
ghost use Rattle.tl_prio.specs.Standing.{kept_of};

use crate::number::least;
use crate::outputs::Outputs;
use std::alloc::Global;
use tl_model::{Act, Record};
use tl_steps::does;
use tl_types::{FileId, Items, NoMemory, Prio, RecordId};

/// An accepted put or job, with its files.
#[derive(Debug, Drop)]
pub struct Kept {
    pub made: RecordId,
    pub inputs: Items<FileId>,
    /// The job's own priority; the least for a put.
    pub prio: Prio,
    pub was_done: bool,
    pub outputs: Outputs,
}

/// A record as it is when it is accepted.
pub(crate) fn kept_of(alloc: Global, rec: &Record) -> Result<Kept, NoMemory>
    ensures { IfOk result (λ kept. kept ≡ kept_of rec.now) }
{
    match rec {
        Record::Put { id } => Ok(Kept {
            made: *id,
            inputs: Items::from_vec(Vec::new(alloc)),
            prio: least(),
            was_done: false,
            outputs: Outputs::new(alloc, *id, 1)?,
        }),
        Record::Job {
            id,
            prio,
            inputs,
            outputs,
            ..
        } => Ok(Kept {
            made: *id,
            inputs: Items::from_vec(inputs.as_slice().to_vec(alloc)?),
            prio: *prio,
            was_done: false,
            outputs: Outputs::new(alloc, *id, *outputs)?,
        }),
    }
}

/// The records after an act.
pub(crate) fn note_records<T>(records: &mut [Kept], act: &Act<T>)
    ensures { records.new ≡ map (kept_after (act_with (λ _. tt) act.now)) records.old }
{
    for kept in records.iter_mut() {
        note_record(kept, act);
    }
}

// The record after an act.
fn note_record<T>(kept: &mut Kept, act: &Act<T>)
    ensures { kept.new ≡ kept_after (act_with (λ _. tt) act.now) kept.old }
{
    kept.was_done = does(kept.made, act) || kept.was_done;
    kept.outputs.note(act);
}
