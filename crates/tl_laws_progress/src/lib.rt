//! Laws of progress: why running what is next comes to an end. Each is the contract of a function with
//! an empty body.
#![tactic(auto)]

mod few;
mod runs;

ghost use Rattle.std.specs.Prelude.{◌≡◌, ◌<◌, ℕ, true, false, is_some, List, Some, length, slice_get};
ghost use Rattle.tl_types.specs.declared.actor.Actor.{Actor};
ghost use Rattle.tl_types.specs.declared.record_id.RecordId.{RecordId};
ghost use Rattle.tl_types.specs.declared.worker_id.WorkerId.{WorkerId};
ghost use Rattle.tl_model.specs.declared.event.Event.{Event};
ghost use Rattle.tl_model.specs.declared.header.Header.{Header};
ghost use Rattle.tl_model.specs.declared.record.Record.{Record};
ghost use Rattle.tl_model.specs.Past.{without_tickets};
ghost use Rattle.tl_model.specs.Tables.{chosen};
ghost use Rattle.tl_model.specs.History.{id_of, records};
ghost use Rattle.tl_model.specs.Actors.{OpenRead, is_running, open_read};
ghost use Rattle.tl_model.specs.Residency.{is_available};
ghost use Rattle.tl_model.specs.Plan.{is_task, next, tasks};
ghost use Rattle.tl_model.specs.Rules.{is_lawful};
ghost use Rattle.tl_laws_progress.specs.Done.{after_done};

pub use few::tasks_are_few;
pub use runs::{
    a_run_leaves_fewer_tasks, next_leaves_fewer_tasks_despite_drops, nothing_runs_after_a_run,
    permitted_drops_may_go,
};

/// A task that is claimed and done while nothing else runs leaves fewer tasks: itself is none then,
/// and no other becomes one.
pub fn done_leaves_fewer_tasks<T>()
    ensures { (header : Header) (events : List (Event T)) → is_lawful header events ≡ true →
        ((made : RecordId) → is_running (without_tickets events) made ≡ false) →
        (actor : Actor) (worker : WorkerId) (i : ℕ) (r : Record) → slice_get (records (without_tickets events)) i ≡ Some r →
        is_task (without_tickets events) (id_of r) ≡ true →
        length (chosen (tasks (after_done actor worker (id_of r) (without_tickets events)))) < length (chosen (tasks (without_tickets events))) }
{}

/// Where an actor's read is open on a file that isn't available and nothing is running, a record is
/// next, so that the read can go on by running what is next.
pub fn a_read_that_waits_has_a_next<T>()
    ensures { (header : Header) (events : List (Event T)) → is_lawful header events ≡ true →
        ((made : RecordId) → is_running (without_tickets events) made ≡ false) →
        (actor : Actor) (read : OpenRead) → open_read (without_tickets events) actor ≡ Some read →
        is_available (without_tickets events) read.file ≡ false → is_some (next header.order (without_tickets events)) ≡ true }
{}

/// Where nothing is running, the record that is next leaves fewer tasks once it is claimed and done.
pub fn next_leaves_fewer_tasks<T>()
    ensures { (header : Header) (events : List (Event T)) → is_lawful header events ≡ true →
        ((made : RecordId) → is_running (without_tickets events) made ≡ false) →
        (actor : Actor) (worker : WorkerId) (made : RecordId) → next header.order (without_tickets events) ≡ Some made →
        length (chosen (tasks (after_done actor worker made (without_tickets events)))) < length (chosen (tasks (without_tickets events))) }
{}
