//! What is kept of an accepted record.

ghost use Rattle.std.specs.Prelude.{◌≡◌, IfOk};
ghost use Rattle.tl_model.specs.Past.{act_with};
ghost use Rattle.tl_model.specs.Residency.{collects};
ghost use Rattle.tl_steps.specs.Steps.{changed_at};
ghost use Rattle.tl_gc.specs.Data.{kept_after, maker_of, records_after, touched};
ghost use Rattle.tl_gc.specs.Standing.{kept_of};

use crate::outputs::Outputs;
use std::alloc::Global;
use tl_model::{Act, Record};
use tl_steps::same_record;
use tl_types::{FileId, Items, NoMemory, RecordId};

/// An accepted put or job, with its files.
#[derive(Debug, Drop)]
pub struct Kept {
    pub made: RecordId,
    pub inputs: Items<FileId>,
    pub outputs: Outputs,
    pub is_collected: bool,
}

/// A record as it is when it is accepted.
pub(crate) fn kept_of(alloc: Global, rec: &Record) -> Result<Kept, NoMemory>
    ensures { IfOk result (λ kept. kept ≡ kept_of rec.now) }
{
    match rec {
        Record::Put { id } => Ok(Kept {
            made: *id,
            inputs: Items::from_vec(Vec::new(alloc)),
            outputs: Outputs::new(alloc, *id, 1)?,
            is_collected: false,
        }),
        Record::Job {
            id,
            inputs,
            outputs,
            ..
        } => Ok(Kept {
            made: *id,
            inputs: Items::from_vec(inputs.as_slice().to_vec(alloc)?),
            outputs: Outputs::new(alloc, *id, *outputs)?,
            is_collected: false,
        }),
    }
}

/// The records after an act that leaves the file `gone` without a name. It changes one at most.
pub(crate) fn note_records<T>(kept: &mut [Kept], act: &Act<T>, gone: Option<FileId>)
    ensures { kept.new ≡ records_after (act_with (λ _. tt) act.now) gone kept.old }
{
    if let Some(made) = touched(act, gone) {
        note_at(kept, made, act, gone);
    }
}

// The record that the act changes, if it changes one.
fn touched<T>(act: &Act<T>, gone: Option<FileId>) -> Option<RecordId>
    ensures { result ≡ touched (act_with (λ _. tt) act.now) gone }
{
    match act {
        Act::Saved(file, _, _) => Some(file.rec),
        Act::Collect(made) => Some(*made),
        _ => maker_of(gone),
    }
}

// The record of the file, if there is one.
fn maker_of(file: Option<FileId>) -> Option<RecordId>
    ensures { result ≡ maker_of file }
{
    match file {
        Some(file) => Some(file.rec),
        None => None,
    }
}

// The records where an act that leaves the file `gone` without a name changes this one, if there is such a
// one.
fn note_at<T>(kept: &mut [Kept], made: RecordId, act: &Act<T>, gone: Option<FileId>)
    ensures { kept.new ≡ changed_at made.0 (kept_after (act_with (λ _. tt) act.now) gone) kept.old }
{
    let at = made.0 as usize;
    if at < kept.len() {
        note_record(&mut kept[at], act, gone);
    }
}

// The record after an act that leaves the file `gone` without a name.
fn note_record<T>(rec: &mut Kept, act: &Act<T>, gone: Option<FileId>)
    ensures { rec.new ≡ kept_after (act_with (λ _. tt) act.now) gone rec.old }
{
    rec.outputs.note(act, gone);
    rec.is_collected = collects(rec.made, act) || rec.is_collected;
}

// Whether the act lets the record go.
fn collects<T>(made: RecordId, act: &Act<T>) -> bool
    ensures { result ≡ collects made (act_with (λ _. tt) act.now) }
{
    match act {
        Act::Collect(other) => same_record(made, *other),
        _ => false,
    }
}
