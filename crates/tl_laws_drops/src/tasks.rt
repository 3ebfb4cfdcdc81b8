//! A drop changes no task, and nothing of what is wanted.

ghost use Rattle.std.specs.Prelude.{◌≡◌, true};
ghost use Rattle.tl_types.specs.declared.actor.Actor.{Actor};
ghost use Rattle.tl_types.specs.declared.file_id.FileId.{FileId};
ghost use Rattle.tl_types.specs.declared.record_id.RecordId.{RecordId};
ghost use Rattle.tl_types.specs.declared.worker_id.WorkerId.{WorkerId};
ghost use Rattle.tl_model.specs.Past.{Past};
ghost use Rattle.tl_model.specs.History.{is_pinned};
ghost use Rattle.tl_model.specs.Plan.{is_task, is_wanted, tasks};
ghost use Rattle.tl_model.specs.Eviction.{may_go};
ghost use Rattle.tl_model.specs.Rules.{can_drop};
ghost use Rattle.tl_laws_drops.specs.Drops.{after_drop};

/// After a drop of a file that may go the same records are tasks (`table`, and by number `task`), and of
/// each file it is as before whether it is wanted, whether it is pinned, and so whether it may go. What is
/// evicted is thus no reason to run a job again.
pub fn drops_change_no_task()
    ensures table { (actor : Actor) (worker : WorkerId) (f : FileId) (past : Past) → can_drop past worker f ≡ true →
        tasks (after_drop actor worker f past) ≡ tasks past }
    ensures task { (actor : Actor) (worker : WorkerId) (f : FileId) (past : Past) → can_drop past worker f ≡ true →
        (made : RecordId) → is_task (after_drop actor worker f past) made ≡ is_task past made }
    ensures wanted { (actor : Actor) (worker : WorkerId) (f : FileId) (past : Past) → can_drop past worker f ≡ true →
        (g : FileId) → is_wanted (after_drop actor worker f past) g ≡ is_wanted past g }
    ensures pinned { (actor : Actor) (worker : WorkerId) (f : FileId) (past : Past) → can_drop past worker f ≡ true →
        (g : FileId) → is_pinned (after_drop actor worker f past) g ≡ is_pinned past g }
    ensures goes { (actor : Actor) (worker : WorkerId) (f : FileId) (past : Past) → can_drop past worker f ≡ true →
        (g : FileId) → may_go (after_drop actor worker f past) g ≡ may_go past g }
{}
