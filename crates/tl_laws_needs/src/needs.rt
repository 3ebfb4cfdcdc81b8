//! What isn't needed is never needed again, so that what is collected is not missed.

ghost use Rattle.std.specs.Prelude.{◌≡◌, ◌++◌, true, false, is_some, List, Some};
ghost use Rattle.tl_types.specs.declared.record_id.RecordId.{RecordId};
ghost use Rattle.tl_model.specs.declared.event.Event.{Event};
ghost use Rattle.tl_model.specs.declared.header.Header.{Header};
ghost use Rattle.tl_model.specs.Past.{without_tickets};
ghost use Rattle.tl_model.specs.History.{record_at};
ghost use Rattle.tl_model.specs.Residency.{is_kept};
ghost use Rattle.tl_model.specs.Plan.{next};
ghost use Rattle.tl_model.specs.Needs.{is_needed};
ghost use Rattle.tl_model.specs.Rules.{Judge, all_permitted};

/// An accepted record that isn't needed is not needed after any later events: names of an unnamed file
/// never come back, saved files stay saved, and a new record's inputs are named when it is accepted.
/// The events may end where something is owed, before and after.
pub fn unneeded_stay_unneeded<T>()
    ensures { (judge : Judge T) (header : Header) (later events : List (Event T)) → all_permitted judge header (later ++ events) ≡ true →
        (made : RecordId) → is_some (record_at (without_tickets events) made) ≡ true → is_needed (without_tickets events) made ≡ false →
        is_needed (without_tickets (later ++ events)) made ≡ false }
{}

/// A record that is needed is kept: it was accepted, and never collected.
pub fn needed_are_kept<T>()
    ensures { (judge : Judge T) (header : Header) (events : List (Event T)) → all_permitted judge header events ≡ true →
        (made : RecordId) → is_needed (without_tickets events) made ≡ true → is_kept (without_tickets events) made ≡ true }
{}

/// The record that is next is kept.
pub fn what_is_next_is_kept<T>()
    ensures { (judge : Judge T) (header : Header) (events : List (Event T)) →
        all_permitted judge header events ≡ true →
        (made : RecordId) → next header.order (without_tickets events) ≡ Some made →
        is_kept (without_tickets events) made ≡ true }
{}
