//! What an act makes of a file and of a record.

ghost use Rattle.std.specs.Prelude.{◌≡◌, if◌then◌else◌};
ghost use Rattle.tl_model.specs.Past.{act_with};
ghost use Rattle.tl_model.specs.Residency.{does, is_at};
ghost use Rattle.tl_steps.specs.Steps.{accepts, is_gone, place_after_done, place_now, saves_now};

use crate::same::{same_file, same_record, same_worker};
use tl_model::{Act, Command, Reply};
use tl_types::{FileId, RecordId, WorkerId};

/// Whether the act adds a record.
pub fn accepts<T>(act: &Act<T>) -> bool
    ensures { result ≡ accepts (act_with (λ _. tt) act.now) }
{
    match act {
        Act::Call(Command::Put { .. } | Command::Job { .. }, Reply::Made(_)) => true,
        _ => false,
    }
}

/// Whether the act says that the record's job was done.
pub fn does<T>(made: RecordId, act: &Act<T>) -> bool
    ensures { result ≡ does made (act_with (λ _. tt) act.now) }
{
    match act {
        Act::Done(_, other) => same_record(made, *other),
        _ => false,
    }
}

/// Where an accepted record's file is after the act, where before it it was here.
pub fn place_now<T>(act: &Act<T>, file: FileId, here: Option<WorkerId>) -> Option<WorkerId>
    ensures { result ≡ place_now (act_with (λ _. tt) act.now) file here }
{
    match act {
        Act::Load(worker, loaded) => {
            if same_file(file, *loaded) {
                Some(*worker)
            } else {
                here
            }
        }
        Act::Done(worker, made) => place_after_done(same_record(file.rec, *made), *worker, here),
        Act::Lose(worker) => place_unless(is_at(*worker, &here), here),
        Act::Drop(worker, dropped) => {
            let is_dropped = same_file(file, *dropped) && is_at(*worker, &here);
            place_unless(is_dropped, here)
        }
        Act::Free(freed) => place_unless(same_file(file, *freed), here),
        _ => here,
    }
}

/// Where a file is after a job was done on the worker, where before it was here.
pub fn place_after_done(is_made: bool, worker: WorkerId, here: Option<WorkerId>) -> Option<WorkerId>
    ensures { result ≡ place_after_done is_made worker here }
{
    match here {
        None if is_made => Some(worker),
        _ => here,
    }
}

/// Where a file is that was here, unless it is taken away.
pub fn place_unless(is_taken: bool, here: Option<WorkerId>) -> Option<WorkerId>
    ensures { result ≡ (if is_taken then None else here) }
{
    if is_taken { None } else { here }
}

/// Whether the place is this worker.
pub fn is_at(worker: WorkerId, place: &Option<WorkerId>) -> bool
    ensures { result ≡ is_at worker place.now }
{
    match place {
        Some(other) => same_worker(worker, *other),
        None => false,
    }
}

/// Whether the act saves the file.
pub fn saves_now<T>(act: &Act<T>, file: FileId) -> bool
    ensures { result ≡ saves_now (act_with (λ _. tt) act.now) file }
{
    match act {
        Act::Saved(saved, _, _) => same_file(file, *saved),
        _ => false,
    }
}

/// Whether the file is the one that loses its name.
pub fn is_gone(gone: Option<FileId>, file: FileId) -> bool
    ensures { result ≡ is_gone gone file }
{
    match gone {
        Some(lost) => same_file(file, lost),
        None => false,
    }
}
