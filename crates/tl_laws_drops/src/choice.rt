//! A drop changes nothing of what can run, of priorities, and of what is next.

ghost use Rattle.std.specs.Prelude.{◌≡◌, ℕ, true, List, Some, slice_get};
ghost use Rattle.tl_types.specs.declared.actor.Actor.{Actor};
ghost use Rattle.tl_types.specs.declared.file_id.FileId.{FileId};
ghost use Rattle.tl_types.specs.declared.record_id.RecordId.{RecordId};
ghost use Rattle.tl_types.specs.declared.worker_id.WorkerId.{WorkerId};
ghost use Rattle.tl_model.specs.declared.header.OrderRule.{OrderRule};
ghost use Rattle.tl_model.specs.declared.record.Record.{Record};
ghost use Rattle.tl_model.specs.Past.{Past};
ghost use Rattle.tl_model.specs.History.{records};
ghost use Rattle.tl_model.specs.Plan.{can_run, next, prio, prios, ready, waits};
ghost use Rattle.tl_model.specs.Rules.{can_drop};
ghost use Rattle.tl_laws.specs.Numbers.{Numbered};
ghost use Rattle.tl_laws_drops.specs.Drops.{after_drop};
ghost use Rattle.tl_laws_drops.specs.Drops.{HasOneOfEach};

/// Records that are numbered in order, as those of each lawful journal are, are one of each number.
pub fn numbered_records_are_one_of_each()
    ensures { (rs : List Record) → Numbered rs → HasOneOfEach rs }
{}

/// After a drop of a file that may go each accepted record waits for the same records and can run where it
/// could, the same records are ready, in the same order, each has the priority that it had, and the record
/// that is next is the same. Records are asked for by number, and so of each number there must be one: else
/// one that is no task passes for another that is, and the dropped file may be its input.
pub fn drops_change_no_choice()
    ensures waits { (actor : Actor) (worker : WorkerId) (f : FileId) (past : Past) → can_drop past worker f ≡ true → HasOneOfEach (records past) →
        (i : ℕ) (reader maker : Record) → slice_get (records past) i ≡ Some reader → waits (after_drop actor worker f past) reader maker ≡ waits past reader maker }
    ensures runs { (actor : Actor) (worker : WorkerId) (f : FileId) (past : Past) → can_drop past worker f ≡ true → HasOneOfEach (records past) →
        (i : ℕ) (r : Record) → slice_get (records past) i ≡ Some r → can_run (after_drop actor worker f past) r ≡ can_run past r }
    ensures ready { (actor : Actor) (worker : WorkerId) (f : FileId) (past : Past) → can_drop past worker f ≡ true → HasOneOfEach (records past) →
        ready (after_drop actor worker f past) ≡ ready past }
    ensures prios { (actor : Actor) (worker : WorkerId) (f : FileId) (past : Past) → can_drop past worker f ≡ true → HasOneOfEach (records past) →
        prios (after_drop actor worker f past) ≡ prios past }
    ensures prio { (actor : Actor) (worker : WorkerId) (f : FileId) (past : Past) → can_drop past worker f ≡ true → HasOneOfEach (records past) →
        (made : RecordId) → prio (after_drop actor worker f past) made ≡ prio past made }
    ensures next { (order : OrderRule) (actor : Actor) (worker : WorkerId) (f : FileId) (past : Past) → can_drop past worker f ≡ true → HasOneOfEach (records past) →
        next order (after_drop actor worker f past) ≡ next order past }
{}
