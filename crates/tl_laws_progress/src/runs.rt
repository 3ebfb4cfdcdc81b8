//! A record that is claimed and done leaves fewer tasks, also where files are dropped after each.

ghost use Rattle.std.specs.Prelude.{◌≡◌, ◌<◌, true, false, List, None, Some, length};
ghost use Rattle.tl_types.specs.declared.actor.Actor.{Actor};
ghost use Rattle.tl_types.specs.declared.file_id.FileId.{FileId};
ghost use Rattle.tl_types.specs.declared.record_id.RecordId.{RecordId};
ghost use Rattle.tl_types.specs.declared.worker_id.WorkerId.{WorkerId};
ghost use Rattle.tl_model.specs.declared.event.Event.{Event};
ghost use Rattle.tl_model.specs.declared.header.Header.{Header};
ghost use Rattle.tl_model.specs.Past.{without_tickets};
ghost use Rattle.tl_model.specs.Tables.{chosen};
ghost use Rattle.tl_model.specs.Actors.{is_running, open_claim};
ghost use Rattle.tl_model.specs.Plan.{next, tasks};
ghost use Rattle.tl_model.specs.Rules.{all_permitted, is_lawful, lawful_judge};
ghost use Rattle.tl_laws_drops.specs.Drops.{MayDrop, drops_by, with_drops};
ghost use Rattle.tl_laws_progress.specs.Runs.{IsRun, after_claim, with_claim, with_done};

/// Where nothing is running, the record that is next leaves fewer tasks once it is claimed and
/// done, whichever files are dropped after its claim and after it is done, each of them one that
/// may go when it is dropped.
pub fn next_leaves_fewer_tasks_despite_drops<T>()
    ensures { (header : Header) (events : List (Event T)) → is_lawful header events ≡ true →
        ((made : RecordId) → is_running (without_tickets events) made ≡ false) →
        (actor : Actor) (worker : WorkerId) (made : RecordId) →
        next header.order (without_tickets events) ≡ Some made →
        (claimed finished : List (WorkerId × FileId)) →
        MayDrop actor claimed (with_claim actor worker made (without_tickets events)) →
        MayDrop actor finished (with_done actor worker made
        (after_claim actor worker made claimed (without_tickets events))) →
        length (chosen (tasks (drops_by actor finished (with_done actor worker made
        (after_claim actor worker made claimed (without_tickets events))))))
        < length (chosen (tasks (without_tickets events))) }
{}

/// In a journal whose events are permitted by what it says itself, each file that drops at its
/// end took may go when it is dropped.
pub fn permitted_drops_may_go<T>()
    ensures { (header : Header) (actor : Actor) (drops : List (WorkerId × FileId))
        (events : List (Event T)) →
        all_permitted lawful_judge header (with_drops actor drops events) ≡ true →
        MayDrop actor drops (without_tickets events) }
{}

/// So in lawful journals each run leaves fewer tasks, whatever else runs: a record is claimed and
/// done, and after each files are dropped. That the record was next, and that the files might go,
/// is said by the journal's being lawful.
pub fn a_run_leaves_fewer_tasks<T>()
    ensures { (header : Header) (events after : List (Event T))
        (actor : Actor) (worker : WorkerId) (made : RecordId) →
        is_lawful header after ≡ true → IsRun actor worker made events after →
        length (chosen (tasks (without_tickets after)))
        < length (chosen (tasks (without_tickets events))) }
{}

/// Where no actor's claim is open, none is after a run.
pub fn nothing_runs_after_a_run<T>()
    ensures { (events after : List (Event T)) (actor : Actor) (worker : WorkerId)
        (made : RecordId) → IsRun actor worker made events after →
        ((a : Actor) → open_claim (without_tickets events) a ≡ None) →
        (a : Actor) → open_claim (without_tickets after) a ≡ None }
{}
