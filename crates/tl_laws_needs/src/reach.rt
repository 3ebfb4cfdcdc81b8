//! Whatever is still asked for can be had again: it is saved, or a kept job makes it of what can be had.

ghost use Rattle.std.specs.Prelude.{◌≡◌, ℕ, true, List, Some, slice_get};
ghost use Rattle.std.specs.List.{list_any};
ghost use Rattle.tl_types.specs.Same.{file_same};
ghost use Rattle.tl_types.specs.declared.file_id.FileId.{FileId};
ghost use Rattle.tl_model.specs.declared.event.Event.{Event};
ghost use Rattle.tl_model.specs.declared.header.Header.{Header};
ghost use Rattle.tl_model.specs.declared.record.Record.{Record};
ghost use Rattle.tl_model.specs.Past.{without_tickets};
ghost use Rattle.tl_model.specs.History.{has_input, is_named, outputs_of, records};
ghost use Rattle.tl_model.specs.Actors.{is_read};
ghost use Rattle.tl_model.specs.Needs.{is_live, is_reachable, is_root};
ghost use Rattle.tl_model.specs.Rules.{Judge, holds};

/// After events that leave nothing owed, each root is reachable.
pub fn roots_are_reachable<T>()
    ensures { (judge : Judge T) (header : Header) (events : List (Event T)) → holds judge header events ≡ true →
        (f : FileId) → is_root (without_tickets events) f ≡ true → is_reachable (without_tickets events) f ≡ true }
{}

/// Each file that is named, and each on which a read is open, is reachable.
pub fn asked_for_are_reachable<T>()
    ensures named { (judge : Judge T) (header : Header) (events : List (Event T)) → holds judge header events ≡ true →
        (f : FileId) → is_named (without_tickets events) f ≡ true → is_reachable (without_tickets events) f ≡ true }
    ensures read { (judge : Judge T) (header : Header) (events : List (Event T)) → holds judge header events ≡ true →
        (f : FileId) → is_read (without_tickets events) f ≡ true → is_reachable (without_tickets events) f ≡ true }
{}

/// Each input and each output of a task, and of a record that is running, is reachable.
pub fn ends_of_tasks_are_reachable<T>()
    ensures inputs { (judge : Judge T) (header : Header) (events : List (Event T)) → holds judge header events ≡ true →
        (i : ℕ) (r : Record) → slice_get (records (without_tickets events)) i ≡ Some r → is_live (without_tickets events) r ≡ true →
        (f : FileId) → has_input f r ≡ true → is_reachable (without_tickets events) f ≡ true }
    ensures outputs { (judge : Judge T) (header : Header) (events : List (Event T)) → holds judge header events ≡ true →
        (i : ℕ) (r : Record) → slice_get (records (without_tickets events)) i ≡ Some r → is_live (without_tickets events) r ≡ true →
        (f : FileId) → list_any (file_same f) (outputs_of r) ≡ true → is_reachable (without_tickets events) f ≡ true }
{}
