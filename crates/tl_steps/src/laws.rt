//! Laws that say what a journal can speak of, and what it saves. Each is the contract of a function
//! with an empty body.

ghost use Rattle.std.specs.Prelude.{◌≡◌, ◌++◌, false, true, List, Some};
ghost use Rattle.tl_model.specs.declared.event.Event.{Event};
ghost use Rattle.tl_model.specs.declared.header.Header.{Header};
ghost use Rattle.tl_types.specs.declared.actor.Actor.{Actor};
ghost use Rattle.tl_types.specs.declared.file_id.FileId.{FileId};
ghost use Rattle.tl_model.specs.Past.{Past, without_tickets};
ghost use Rattle.tl_model.specs.History.{is_named};
ghost use Rattle.tl_model.specs.Actors.{is_being_saved, open_save};
ghost use Rattle.tl_model.specs.Residency.{SavedAs, is_resident, is_saved, saved_as};
ghost use Rattle.tl_model.specs.Checkpoints.{next_save};
ghost use Rattle.tl_model.specs.Rules.{Judge, all_permitted, lawful_judge};
ghost use Rattle.tl_steps.specs.Within.{IsWithin};

/// Where the events of a journal are permitted, all files and records that it speaks of were accepted
/// before.
pub fn journals_speak_of_the_accepted<T>()
    ensures { (header : Header) (past : List (Event T)) → all_permitted lawful_judge header past ≡ true → IsWithin (without_tickets past) }
{}

/// In a journal whose events are permitted a file of which a save is open isn't saved (`unsaved`), and
/// one actor alone has a save of it open (`alone`).
pub fn a_file_is_saved_by_one_actor<T>()
    ensures unsaved { (judge : Judge T) (header : Header) (past : List (Event T)) →
        all_permitted judge header past ≡ true →
        (actor : Actor) (f : FileId) → open_save (without_tickets past) actor ≡ Some f →
        is_saved (without_tickets past) f ≡ false }
    ensures alone { (judge : Judge T) (header : Header) (past : List (Event T)) →
        all_permitted judge header past ≡ true →
        (a b : Actor) (f : FileId) → open_save (without_tickets past) a ≡ Some f →
        open_save (without_tickets past) b ≡ Some f → a ≡ b }
{}

/// What is saved keeps the size and the digest with which it was saved, after any events that are
/// permitted.
pub fn what_is_saved_stays_so<T>()
    ensures { (judge : Judge T) (header : Header) (more past : List (Event T)) →
        all_permitted judge header (more ++ past) ≡ true →
        (f : FileId) (it : SavedAs) → saved_as (without_tickets past) f ≡ Some it →
        saved_as (without_tickets (more ++ past)) f ≡ Some it }
{}

/// The file that is saved next is named (`named`), in memory (`resident`) and not saved (`unsaved`),
/// and no save of it is open (`idle`), after any past.
pub fn what_is_saved_next_can_be_saved()
    ensures named { (header : Header) (past : Past) (f : FileId) →
        next_save header past ≡ Some f → is_named past f ≡ true }
    ensures resident { (header : Header) (past : Past) (f : FileId) →
        next_save header past ≡ Some f → is_resident past f ≡ true }
    ensures unsaved { (header : Header) (past : Past) (f : FileId) →
        next_save header past ≡ Some f → is_saved past f ≡ false }
    ensures idle { (header : Header) (past : Past) (f : FileId) →
        next_save header past ≡ Some f → is_being_saved past f ≡ false }
{}
