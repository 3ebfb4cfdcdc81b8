//! A drop takes one file away, and none that is wanted.

ghost use Rattle.std.specs.Prelude.{◌≡◌, true, false, None};
ghost use Rattle.tl_types.specs.Same.{file_same};
ghost use Rattle.tl_types.specs.declared.actor.Actor.{Actor};
ghost use Rattle.tl_types.specs.declared.file_id.FileId.{FileId};
ghost use Rattle.tl_types.specs.declared.worker_id.WorkerId.{WorkerId};
ghost use Rattle.tl_model.specs.Past.{Past};
ghost use Rattle.tl_model.specs.Residency.{is_available, place};
ghost use Rattle.tl_model.specs.Plan.{is_wanted};
ghost use Rattle.tl_model.specs.Rules.{can_drop};
ghost use Rattle.tl_laws_drops.specs.Drops.{after_drop};

/// After a drop of a file that may go each wanted file that was available still is (`available`), each other
/// file is where it was (`others`), and the dropped one is in no worker's memory (`dropped`).
pub fn drops_take_nothing_wanted()
    ensures available { (actor : Actor) (worker : WorkerId) (f : FileId) (past : Past) → can_drop past worker f ≡ true →
        (g : FileId) → is_wanted past g ≡ true → is_available past g ≡ true → is_available (after_drop actor worker f past) g ≡ true }
    ensures others { (actor : Actor) (worker : WorkerId) (f : FileId) (past : Past) → can_drop past worker f ≡ true →
        (g : FileId) → file_same g f ≡ false → place (after_drop actor worker f past) g ≡ place past g }
    ensures dropped { (actor : Actor) (worker : WorkerId) (f : FileId) (past : Past) → can_drop past worker f ≡ true →
        place (after_drop actor worker f past) f ≡ None }
{}
