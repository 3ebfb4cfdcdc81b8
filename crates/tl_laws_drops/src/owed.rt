//! The drop that is owed may be made, and where none is owed nothing is.

ghost use Rattle.std.specs.Prelude.{◌≡◌, ◌∷◌, ℕ, List, None, Some, is_some, true};
ghost use Rattle.tl_types.specs.declared.file_id.FileId.{FileId};
ghost use Rattle.tl_types.specs.declared.worker_id.WorkerId.{WorkerId};
ghost use Rattle.tl_model.specs.declared.event.Event.{Event};
ghost use Rattle.tl_model.specs.declared.header.Header.{Header};
ghost use Rattle.tl_model.specs.Past.{Past, Told, without_tickets};
ghost use Rattle.tl_model.specs.Eviction.{Sizes, first_to_drop, victim};
ghost use Rattle.tl_model.specs.Rules.{Nothing, ToDrop, can_drop, is_due, owed, size_of};
ghost use Rattle.tl_model.specs.Rules.{all_permitted, is_lawful, is_legal};
ghost use Rattle.tl_model.specs.Rules.{lawful_judge, legal_judge};
ghost use Rattle.tl_laws_drops.specs.Drops.{AreDue, with_drops};

/// The worker that must drop a file has a victim (`found`). A victim may be dropped, as the judge
/// of lawful journals asks (`goes`), and that of the worker that must drop is due, as the judge of
/// legal ones asks (`due`).
pub fn owed_drops_may_go()
    ensures found { (sizes : Sizes) (header : Header) (past : Past) (worker : WorkerId) →
        first_to_drop sizes header past ≡ Some worker → is_some (victim past worker) ≡ true }
    ensures goes { (past : Past) (worker : WorkerId) (f : FileId) →
        victim past worker ≡ Some f → can_drop past worker f ≡ true }
    ensures due { (header : Header) (past : Told) (worker : WorkerId) (f : FileId) →
        first_to_drop (size_of past) header (without_tickets past) ≡ Some worker →
        victim (without_tickets past) worker ≡ Some f → is_due header past worker f ≡ true }
{}

/// After an event that by itself owes nothing, where bytes are known, a drop is owed as long as
/// some worker must drop a file (`drop`), and after that nothing (`settled`).
pub fn a_quiet_event_owes_its_drop()
    ensures drop { (header : Header) (event : Event (List ℕ)) (past : Told) (worker : WorkerId) →
        owed lawful_judge (event ∷ past) ≡ Nothing →
        first_to_drop (size_of (event ∷ past)) header (without_tickets (event ∷ past))
        ≡ Some worker →
        owed (legal_judge header) (event ∷ past) ≡ ToDrop }
    ensures settled { (header : Header) (event : Event (List ℕ)) (past : Told) →
        owed lawful_judge (event ∷ past) ≡ Nothing →
        first_to_drop (size_of (event ∷ past)) header (without_tickets (event ∷ past)) ≡ None →
        owed (legal_judge header) (event ∷ past) ≡ Nothing }
{}

/// Where an event by itself owes nothing, and the drops after it, by its actor, are each the one
/// that is due, each is permitted as it comes (`permitted`), the journal is legal once no worker
/// must drop a file (`legal`), and a lawful one stays lawful (`lawful`).
pub fn due_drops_are_permitted()
    ensures permitted { (header : Header) (event : Event (List ℕ)) (past : Told)
        (drops : List (WorkerId × FileId)) →
        all_permitted (legal_judge header) header (event ∷ past) ≡ true →
        owed lawful_judge (event ∷ past) ≡ Nothing →
        AreDue header event.actor drops (event ∷ past) →
        all_permitted (legal_judge header) header (with_drops event.actor drops (event ∷ past))
        ≡ true }
    ensures legal { (header : Header) (event : Event (List ℕ)) (past : Told)
        (drops : List (WorkerId × FileId)) →
        all_permitted (legal_judge header) header (event ∷ past) ≡ true →
        owed lawful_judge (event ∷ past) ≡ Nothing →
        AreDue header event.actor drops (event ∷ past) →
        first_to_drop (size_of (with_drops event.actor drops (event ∷ past))) header
        (without_tickets (with_drops event.actor drops (event ∷ past))) ≡ None →
        is_legal header (with_drops event.actor drops (event ∷ past)) ≡ true }
    ensures lawful { (header : Header) (event : Event (List ℕ)) (past : Told)
        (drops : List (WorkerId × FileId)) →
        is_lawful header (event ∷ past) ≡ true →
        AreDue header event.actor drops (event ∷ past) →
        is_lawful header (with_drops event.actor drops (event ∷ past)) ≡ true }
{}
