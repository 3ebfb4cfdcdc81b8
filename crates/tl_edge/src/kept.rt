//! A record for which there is a place.

ghost use Rattle.std.specs.Prelude.{◌≡◌, IfOk};
ghost use Rattle.tl_edge.specs.Standing.{kept_of};

use crate::outputs::Outputs;
use std::alloc::Global;
use tl_model::Record;
use tl_types::{FileId, Items, NoMemory};

/// A record's inputs, and the files that it makes.
#[derive(Debug, Drop)]
pub struct Kept {
    pub inputs: Items<FileId>,
    pub outputs: Outputs,
}

/// What is kept of a record when it is accepted.
pub(crate) fn kept_of(alloc: Global, rec: &Record) -> Result<Kept, NoMemory>
    ensures { IfOk result (λ kept. kept ≡ kept_of rec.now) }
{
    match rec {
        Record::Put { id } => Ok(Kept {
            inputs: Items::from_vec(Vec::new(alloc)),
            outputs: Outputs::new(alloc, *id, 1)?,
        }),
        Record::Job {
            id,
            inputs,
            outputs,
            ..
        } => Ok(Kept {
            inputs: Items::from_vec(inputs.as_slice().to_vec(alloc)?),
            outputs: Outputs::new(alloc, *id, *outputs)?,
        }),
    }
}
