//! What others' events and an actor's drops leave as it was.

ghost use Rattle.std.specs.Prelude.{◌≡◌, List, None, [], ◌∷◌, ◌++◌, false, map, true};
ghost use Rattle.tl_types.specs.declared.file_id.FileId.{FileId};
ghost use Rattle.tl_types.specs.declared.worker_id.WorkerId.{WorkerId};
ghost use Rattle.tl_model.specs.declared.event.Act.{Act};
ghost use Rattle.tl_model.specs.Actors.{is_idle, open_claim, open_read, open_save};
ghost use Rattle.tl_model.specs.Past.{without_tickets};
ghost use Rattle.tl_pieces.specs.Own.{Adds, drop_by, is_drop};
ghost use Rattle.tl_pieces.specs.Setting.{Setting, Events, event_by};

/// Drops of the actor add nothing of its own.
pub fn drops_add_nothing<T>()
    ensures { (s : Setting T) (drops : List (WorkerId × FileId)) (events : Events T) →
        Adds s [] events (map (drop_by s.actor) drops ++ events) }
{}

/// An act of the actor that is no drop, with its drops after it, adds the act alone.
pub fn an_act_with_drops_adds_the_act<T>()
    ensures { (s : Setting T) (act : Act T) (drops : List (WorkerId × FileId))
        (events : Events T) → is_drop act ≡ false →
        Adds s (event_by s.actor act ∷ []) events
        (map (drop_by s.actor) drops ++ event_by s.actor act ∷ events) }
{}

/// Where an actor added nothing, its read and its save are open as before, it has no claim where it
/// had none, and it has nothing open where it had nothing.
pub fn where_nothing_was_added_nothing_opens<T>()
    ensures reads { (s : Setting T) (before after : Events T) → Adds s [] before after →
        open_read (without_tickets after) s.actor ≡ open_read (without_tickets before) s.actor }
    ensures saves { (s : Setting T) (before after : Events T) → Adds s [] before after →
        open_save (without_tickets after) s.actor ≡ open_save (without_tickets before) s.actor }
    ensures claims { (s : Setting T) (before after : Events T) → Adds s [] before after →
        open_claim (without_tickets before) s.actor ≡ None →
        open_claim (without_tickets after) s.actor ≡ None }
    ensures rests { (s : Setting T) (before after : Events T) → Adds s [] before after →
        is_idle (without_tickets before) s.actor ≡ true →
        is_idle (without_tickets after) s.actor ≡ true }
{}
