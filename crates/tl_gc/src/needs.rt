//! Which records are needed, and the first that is not.

ghost use Rattle.std.specs.Prelude.{◌≡◌, ◌≤◌, ◌<◌, length, map, slice_get};
ghost use Rattle.std.specs.Option.{option_copied};
ghost use Rattle.tl_model.specs.Past.{Past};
ghost use Rattle.tl_model.specs.Plan.{is_task};
ghost use Rattle.tl_gc.specs.declared.kept.Kept.{Kept as KeptOf};
ghost use Rattle.tl_gc.specs.Data.{all_marked, first_free, found_garbage, is_needed_now, marked_if, table_step, unsaved_at, walked, with_mark};

use crate::kept::Kept;
use tl_model::Facts;
use tl_steps::{Seat, is_running};
use tl_types::{FileId, RecordId};

/// The first record that was not let go and is not needed. What is needed is found anew in `needed`, which
/// has a place for each record.
pub(crate) fn find_garbage<F: Facts>(
    kept: &[Kept],
    needed: &mut [bool],
    seats: &[Seat],
    facts: &F,
) -> Option<RecordId>
    requires { length needed.old ≡ length kept.now }
    ensures { (past : Past) → F.speaks_of facts.now past →
        result ≡ found_garbage seats.now kept.now (map (λ (k : KeptOf). is_task past k.made) kept.now) }
{
    mark_tasks(kept, needed, facts);
    mark_needed(kept, needed, seats);
    first_free(kept, needed)
}

// Marks the tasks alone.
fn mark_tasks<F: Facts>(kept: &[Kept], needed: &mut [bool], facts: &F)
    requires { length needed.old ≡ length kept.now }
    ensures tasks { (past : Past) → F.speaks_of facts.now past → needed.new ≡ map (λ (k : KeptOf). is_task past k.made) kept.now }
    ensures len { length needed.new ≡ length kept.now }
{
    for i in 0..kept.len() {
        needed[i] = facts.is_task(kept[i].made);
    }
}

// Marks, from the last record to the first, what is needed beside the tasks, which are marked.
fn mark_needed(kept: &[Kept], needed: &mut [bool], seats: &[Seat])
    requires { length needed.old ≡ length kept.now }
    ensures needed { needed.new ≡ walked seats.now kept.now (length kept.now) needed.old }
    ensures len { length needed.new ≡ length kept.now }
{
    for i in (0..kept.len()).rev() {
        mark_at(i, kept, needed, seats);
    }
}

// Decides whether the record of a number is needed, where the later ones have marked it if they need it.
fn mark_at(n: usize, kept: &[Kept], needed: &mut [bool], seats: &[Seat])
    requires kept { n < length kept.now }
    requires needed { length needed.old ≡ length kept.now }
    ensures needed { needed.new ≡ table_step seats.now kept.now n needed.old }
    ensures len { length needed.new ≡ length kept.now }
{
    let is_needed = is_needed_now(seats, &kept[n], needed[n]);
    needed[n] = is_needed;
    mark_if(is_needed, n, kept, needed);
}

// Whether the record is needed, where this says whether it is a task or a later one needs it.
fn is_needed_now(seats: &[Seat], rec: &Kept, is_marked: bool) -> bool
    ensures { result ≡ is_needed_now seats.now rec.now is_marked }
{
    is_marked || is_running(seats, rec.made) || rec.outputs.has_held(seats)
}

// Marks the earlier records that the one of a number needs, if it is needed.
fn mark_if(is_needed: bool, n: usize, kept: &[Kept], needed: &mut [bool])
    requires kept { n < length kept.now }
    requires needed { length needed.old ≡ length kept.now }
    ensures needed { needed.new ≡ marked_if is_needed kept.now n (slice_get kept.now n) needed.old }
    ensures len { length needed.new ≡ length kept.now }
{
    if is_needed {
        mark_inputs(n, kept, kept[n].inputs.as_slice(), needed);
    }
}

// Marks the records before a number that make one of these files, where it is unsaved.
fn mark_inputs(n: usize, kept: &[Kept], inputs: &[FileId], needed: &mut [bool])
    requires kept { n ≤ length kept.now }
    requires needed { length needed.old ≡ length kept.now }
    ensures needed { needed.new ≡ all_marked kept.now n inputs.now needed.old }
    ensures len { length needed.new ≡ length kept.now }
{
    let mut left = inputs;
    'inputs: while let Some((first, later)) = left.split_first() {
        mark_input(n, kept, *first, needed);
        left = later;
    }
}

// Marks the record before a number that makes the file, where it is unsaved.
fn mark_input(n: usize, kept: &[Kept], file: FileId, needed: &mut [bool])
    requires kept { n ≤ length kept.now }
    requires needed { length needed.old ≡ length kept.now }
    ensures needed { needed.new ≡ with_mark kept.now n file needed.old }
    ensures len { length needed.new ≡ length kept.now }
{
    let at = file.rec.0 as usize;
    if at < n && unsaved_at(file, kept.get(at)) {
        needed[at] = true;
    }
}

// Whether the record makes the file, and it is unsaved.
fn unsaved_at(file: FileId, found: Option<&Kept>) -> bool
    ensures { result ≡ unsaved_at file (option_copied found.entry) }
{
    match found {
        Some(rec) => rec.outputs.has_unsaved(file),
        None => false,
    }
}

// The first record that was not let go and is not needed.
fn first_free(kept: &[Kept], needed: &[bool]) -> Option<RecordId>
    ensures { result ≡ first_free kept.now needed.now }
{
    let mut left = kept;
    let mut answers = needed;
    'records: while let Some((first, later)) = left.split_first() {
        let Some((is_needed, more)) = answers.split_first() else {
            return None;
        };
        if !first.is_collected && !*is_needed {
            return Some(first.made);
        }
        left = later;
        answers = more;
    }
    None
}
