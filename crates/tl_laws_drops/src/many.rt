//! Many drops, each of a file that may go at its time, change nothing of the plan.

ghost use Rattle.std.specs.Prelude.{◌≡◌, true, false, List, None};
ghost use Rattle.tl_types.specs.declared.actor.Actor.{Actor};
ghost use Rattle.tl_types.specs.declared.file_id.FileId.{FileId};
ghost use Rattle.tl_types.specs.declared.worker_id.WorkerId.{WorkerId};
ghost use Rattle.tl_model.specs.declared.header.OrderRule.{OrderRule};
ghost use Rattle.tl_model.specs.Past.{Past};
ghost use Rattle.tl_model.specs.History.{calls_of, names, records};
ghost use Rattle.tl_model.specs.Actors.{open_claim, open_read, open_save};
ghost use Rattle.tl_model.specs.Residency.{is_available, place, saved_as};
ghost use Rattle.tl_model.specs.Plan.{is_wanted, next, prios, ready, tasks};
ghost use Rattle.tl_model.specs.Eviction.{may_go};
ghost use Rattle.tl_laws_drops.specs.Drops.{HasOneOfEach};
ghost use Rattle.tl_laws_drops.specs.Drops.{MayDrop, drops_by, is_among};

/// After drops, each of a file that may go when it is dropped, the same records are tasks, the same files are
/// wanted and may go, the same records are ready, in the same order, each has the priority that it had, and
/// the record that is next is the same. For the last three there must be one record of each number, as for
/// one drop.
pub fn drops_change_no_plan()
    ensures tasks { (actor : Actor) (drops : List (WorkerId × FileId)) (past : Past) → MayDrop actor drops past →
        tasks (drops_by actor drops past) ≡ tasks past }
    ensures wanted { (actor : Actor) (drops : List (WorkerId × FileId)) (past : Past) → MayDrop actor drops past →
        (g : FileId) → is_wanted (drops_by actor drops past) g ≡ is_wanted past g }
    ensures goes { (actor : Actor) (drops : List (WorkerId × FileId)) (past : Past) → MayDrop actor drops past →
        (g : FileId) → may_go (drops_by actor drops past) g ≡ may_go past g }
    ensures ready { (actor : Actor) (drops : List (WorkerId × FileId)) (past : Past) → MayDrop actor drops past → HasOneOfEach (records past) →
        ready (drops_by actor drops past) ≡ ready past }
    ensures prios { (actor : Actor) (drops : List (WorkerId × FileId)) (past : Past) → MayDrop actor drops past → HasOneOfEach (records past) →
        prios (drops_by actor drops past) ≡ prios past }
    ensures next { (order : OrderRule) (actor : Actor) (drops : List (WorkerId × FileId)) (past : Past) → MayDrop actor drops past → HasOneOfEach (records past) →
        next order (drops_by actor drops past) ≡ next order past }
{}

/// Any drops, whether or not the files may go, leave the history as it was: the calls, the names and the
/// records that they leave, and which files were saved, with which size and digest.
pub fn drops_leave_the_history()
    ensures calls { (actor : Actor) (drops : List (WorkerId × FileId)) (past : Past) → calls_of (drops_by actor drops past) ≡ calls_of past }
    ensures names { (actor : Actor) (drops : List (WorkerId × FileId)) (past : Past) → names (drops_by actor drops past) ≡ names past }
    ensures records { (actor : Actor) (drops : List (WorkerId × FileId)) (past : Past) → records (drops_by actor drops past) ≡ records past }
    ensures saved { (actor : Actor) (drops : List (WorkerId × FileId)) (past : Past) (g : FileId) → saved_as (drops_by actor drops past) g ≡ saved_as past g }
{}

/// And what each actor has open: its read, its claim and its save.
pub fn drops_close_nothing()
    ensures reads { (actor : Actor) (drops : List (WorkerId × FileId)) (past : Past) (a : Actor) → open_read (drops_by actor drops past) a ≡ open_read past a }
    ensures claims { (actor : Actor) (drops : List (WorkerId × FileId)) (past : Past) (a : Actor) → open_claim (drops_by actor drops past) a ≡ open_claim past a }
    ensures saves { (actor : Actor) (drops : List (WorkerId × FileId)) (past : Past) (a : Actor) → open_save (drops_by actor drops past) a ≡ open_save past a }
{}

/// After drops of files that may go a wanted file has the place that it had (`wanted`), and is available if it
/// was (`available`). Each file that isn't among the dropped ones has its place too (`others`), and those are
/// in no worker's memory (`dropped`).
pub fn drops_leave_what_is_wanted()
    ensures wanted { (actor : Actor) (drops : List (WorkerId × FileId)) (past : Past) → MayDrop actor drops past →
        (g : FileId) → is_wanted past g ≡ true → place (drops_by actor drops past) g ≡ place past g }
    ensures available { (actor : Actor) (drops : List (WorkerId × FileId)) (past : Past) → MayDrop actor drops past →
        (g : FileId) → is_wanted past g ≡ true → is_available (drops_by actor drops past) g ≡ is_available past g }
    ensures others { (actor : Actor) (drops : List (WorkerId × FileId)) (past : Past) (g : FileId) → is_among g drops ≡ false →
        place (drops_by actor drops past) g ≡ place past g }
    ensures dropped { (actor : Actor) (drops : List (WorkerId × FileId)) (past : Past) → MayDrop actor drops past →
        (g : FileId) → is_among g drops ≡ true → place (drops_by actor drops past) g ≡ None }
{}
