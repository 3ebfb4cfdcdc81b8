//! The records of a lawful journal are numbered in order, and made of older ones.

ghost use Rattle.std.specs.Prelude.{◌≡◌, ◌<◌, ℕ, true, false, is_some, List, Some, slice_get};
ghost use Rattle.tl_model.specs.declared.record.Record.{Record};
ghost use Rattle.tl_types.specs.declared.record_id.RecordId.{RecordId};
ghost use Rattle.tl_model.specs.Actors.{is_running};
ghost use Rattle.tl_model.specs.Plan.{is_task, next, waits_for};
ghost use Rattle.tl_model.specs.declared.event.Event.{Event};
ghost use Rattle.tl_model.specs.declared.header.Header.{Header};
ghost use Rattle.tl_model.specs.Past.{without_tickets};
ghost use Rattle.tl_model.specs.History.{id_of, names, records};
ghost use Rattle.tl_model.specs.Rules.{is_lawful};
ghost use Rattle.tl_laws.specs.Numbers.{Numbered};
ghost use Rattle.tl_laws.specs.Order.{IsOrdered};

/// Each record has the number of its place among the accepted ones, from 0.
pub fn records_are_numbered<T>()
    ensures { (header : Header) (past : List (Event T)) → is_lawful header past ≡ true → Numbered (records (without_tickets past)) }
{}

/// Each file that is named is an accepted record's, and each input of a record is an older record's.
pub fn inputs_are_older<T>()
    ensures { (header : Header) (past : List (Event T)) → is_lawful header past ≡ true →
        IsOrdered (names (without_tickets past)) (records (without_tickets past)) }
{}

/// A record waits for records of lesser numbers only, so that waits form no cycle.
pub fn waits_are_for_older<T>()
    ensures { (header : Header) (past : List (Event T)) → is_lawful header past ≡ true →
        (i : ℕ) (reader maker : Record) → slice_get (records (without_tickets past)) i ≡ Some reader →
        waits_for (without_tickets past) reader maker ≡ true → (id_of maker).0 < (id_of reader).0 }
{}

/// Where there is a task and nothing is running, a record is next: some task is ready.
pub fn some_task_is_ready<T>()
    ensures { (header : Header) (past : List (Event T)) → is_lawful header past ≡ true →
        ((made : RecordId) → is_running (without_tickets past) made ≡ false) →
        (i : ℕ) (r : Record) → slice_get (records (without_tickets past)) i ≡ Some r → is_task (without_tickets past) (id_of r) ≡ true →
        is_some (next header.order (without_tickets past)) ≡ true }
{}
