//! The priority of each record, from the last to the first.

ghost use Rattle.std.specs.Prelude.{◌≡◌, max};
ghost use Rattle.std.specs.Option.{option_copied};
ghost use Rattle.tl_model.specs.Past.{Past};
ghost use Rattle.tl_model.specs.Plan.{is_task};
ghost use Rattle.tl_steps.specs.Steps.{changed_at};
ghost use Rattle.tl_prio.specs.Data.{all_raised, file_at, greatest_read, is_lacking, none_waiting, own_prio_of, prio_with, read_prio, waiting_after, waiting_at, with_raised};

use crate::kept::Kept;
use crate::number::{greater, least};
use crate::output::{Output, is_here};
use crate::outputs::Outputs;
use tl_model::Facts;
use tl_steps::{OpenRead, Seat, is_running};
use tl_types::{FileId, Prio, RecordId};

/// Nothing waits yet.
pub(crate) fn clear(waiting: &mut [Prio])
    ensures { waiting.new ≡ none_waiting waiting.old }
{
    for prio in waiting.iter_mut() {
        *prio = least();
    }
}

/// Finds the record's priority, where those of the later ones are known, and tells it to the records for
/// which it waits.
pub(crate) fn settle<F: Facts>(
    facts: &F,
    seats: &[Seat],
    records: &[Kept],
    kept: &Kept,
    waiting: &mut [Prio],
) -> Prio
    ensures prio { result ≡ prio_with seats.now kept.now (waiting_at kept.now.made waiting.old) }
    ensures waiting { (past : Past) → F.speaks_of facts.now past →
        waiting.new
        ≡ waiting_after (is_task past) seats.now records.now kept.now result waiting.old }
{
    let prio = prio_with(seats, kept, waiting_at(waiting, kept.made));
    if facts.is_task(kept.made) && !is_running(seats, kept.made) {
        raise_all(prio, records, kept.inputs.as_slice(), waiting);
    }
    prio
}

// The record's priority, where the greatest of those that wait for it is this.
fn prio_with(seats: &[Seat], kept: &Kept, waiting: Prio) -> Prio
    ensures { result ≡ prio_with seats.now kept.now waiting }
{
    let read = greatest_read(&kept.outputs, seats);
    greater(own_prio(kept), greater(read, waiting))
}

// The job's own priority while it was never done.
fn own_prio(kept: &Kept) -> Prio
    ensures { result ≡ own_prio_of kept.now }
{
    if kept.was_done { least() } else { kept.prio }
}

// The greatest priority of the reads on one of the files.
fn greatest_read(outputs: &Outputs, seats: &[Seat]) -> Prio
    ensures { result ≡ greatest_read outputs.now seats.now }
{
    let mut most = least();
    for i in (0..seats.len()).rev() {
        most = greater(read_prio(outputs, seats[i].read), most);
    }
    most
}

// The priority of the read, where it is one on one of the files.
fn read_prio(outputs: &Outputs, read: Option<OpenRead>) -> Prio
    ensures { result ≡ read_prio outputs.now read }
{
    match read {
        Some(read) if outputs.contains(read.file()) => read.prio(),
        _ => least(),
    }
}

// The greatest priority of those that wait for the record.
fn waiting_at(waiting: &[Prio], made: RecordId) -> Prio
    ensures { result ≡ waiting_at made waiting.now }
{
    match waiting.get(made.0 as usize) {
        Some(prio) => *prio,
        None => least(),
    }
}

// One of this priority waits for those of its inputs that are lacking.
fn raise_all(prio: Prio, records: &[Kept], inputs: &[FileId], waiting: &mut [Prio])
    ensures { waiting.new ≡ all_raised prio records.now inputs.now waiting.old }
{
    for input in inputs {
        raise(prio, records, *input, waiting);
    }
}

// One of this priority waits for the file, where it is lacking.
fn raise(prio: Prio, records: &[Kept], file: FileId, waiting: &mut [Prio])
    ensures { waiting.new ≡ with_raised prio records.now file waiting.old }
{
    if is_lacking(find(records, file)) {
        raise_at(prio, file.rec.0 as usize, waiting);
    }
}

// One of this priority waits for the record at a place, if there is one.
fn raise_at(prio: Prio, at: usize, waiting: &mut [Prio])
    ensures { waiting.new ≡ changed_at at (max prio) waiting.old }
{
    if at < waiting.len() {
        waiting[at] = greater(prio, waiting[at]);
    }
}

// The file, if a record makes it.
fn find(records: &[Kept], file: FileId) -> Option<&Output>
    ensures { option_copied result ≡ file_at file records.now }
{
    records.get(file.rec.0 as usize)?.outputs.get(file.out)
}

// Whether a record makes the file, and it is neither in memory nor saved.
fn is_lacking(found: Option<&Output>) -> bool
    ensures { result ≡ is_lacking (option_copied found.entry) }
{
    match found {
        Some(output) => !is_here(output),
        None => false,
    }
}
