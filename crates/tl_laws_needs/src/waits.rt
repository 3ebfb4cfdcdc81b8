//! What a record waits for will be run, and not later than its turn.

ghost use Rattle.std.specs.Prelude.{◌≡◌, ◌≤◌, ℕ, true, List, Some, slice_get};
ghost use Rattle.tl_model.specs.declared.event.Event.{Event};
ghost use Rattle.tl_model.specs.declared.header.Header.{Header};
ghost use Rattle.tl_model.specs.declared.record.Record.{Record};
ghost use Rattle.tl_model.specs.Past.{without_tickets};
ghost use Rattle.tl_model.specs.History.{id_of, records};
ghost use Rattle.tl_model.specs.Plan.{is_task, prio, waits};
ghost use Rattle.tl_model.specs.Rules.{Judge, holds};

/// A record that another waits for is a task. It may be running.
pub fn waited_for_are_tasks<T>()
    ensures { (judge : Judge T) (header : Header) (events : List (Event T)) → holds judge header events ≡ true →
        (i j : ℕ) (reader maker : Record) → slice_get (records (without_tickets events)) i ≡ Some reader → slice_get (records (without_tickets events)) j ≡ Some maker →
        waits (without_tickets events) reader maker ≡ true → is_task (without_tickets events) (id_of maker) ≡ true }
{}

/// It has at least the priority of the one that waits.
pub fn waited_for_are_as_urgent<T>()
    ensures { (judge : Judge T) (header : Header) (events : List (Event T)) → holds judge header events ≡ true →
        (i j : ℕ) (reader maker : Record) → slice_get (records (without_tickets events)) i ≡ Some reader → slice_get (records (without_tickets events)) j ≡ Some maker →
        waits (without_tickets events) reader maker ≡ true → prio (without_tickets events) (id_of reader) ≤ prio (without_tickets events) (id_of maker) }
{}
