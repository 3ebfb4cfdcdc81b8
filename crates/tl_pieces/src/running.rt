//! What a run adds to a journal, and the moment at which it was begun.

ghost use Rattle.std.specs.Prelude.{◌≡◌, Bool, true, List, [], ◌++◌, false};
ghost use Rattle.std.specs.List.{list_any};
ghost use Rattle.tl_types.specs.declared.worker_id.WorkerId.{WorkerId};
ghost use Rattle.tl_model.specs.Past.{Past};
ghost use Rattle.tl_pieces.specs.Moments.{Moment};
ghost use Rattle.tl_pieces.specs.Own.{Adds};
ghost use Rattle.tl_pieces.specs.Runs.{IsRun, Lost, Ran, Run, is_loss, run_of, runs_of};
ghost use Rattle.tl_pieces.specs.Setting.{Setting, Events};

/// A run adds its claim and what ended it, and nothing else of its actor.
pub fn a_run_adds_its_claim_and_end<T>()
    ensures { (s : Setting T) (worker : WorkerId) (is_so : Past → Bool) (run : Run)
        (before after : Events T) →
        IsRun s worker is_so run before after →
        Adds s (run_of s.actor worker run) before after }
{}

/// What was so when the run was begun was so at a moment before its claim.
pub fn a_run_has_its_moment<T>()
    ensures { (s : Setting T) (worker : WorkerId) (is_so : Past → Bool) (run : Run)
        (before after : Events T) →
        IsRun s worker is_so run before after → Moment s is_so before after }
{}

/// Runs add their claims and ends, one run after another.
pub fn runs_add_their_claims_and_ends<T>()
    ensures { (s : Setting T) (worker : WorkerId) (is_so : Past → Bool) (runs : List Run)
        (before after : Events T) →
        Ran s worker is_so runs before after →
        Adds s (runs_of s.actor worker runs) before after }
{}

/// Runs that came first and runs that came then came one after another.
pub fn runs_follow_each_other<T>()
    ensures { (s : Setting T) (worker : WorkerId) (is_so : Past → Bool) (first then_ : List Run)
        (before between after : Events T) →
        Ran s worker is_so first before between → Ran s worker is_so then_ between after →
        Ran s worker is_so (then_ ++ first) before after }
{}

/// Who has the journal to itself loses no run.
pub fn a_run_is_lost_by_others_alone<T>()
    ensures { (s : Setting T) (worker : WorkerId) (is_so : Past → Bool) (run : Run)
        (before after : Events T) →
        IsRun s worker is_so run before after → run.end ≡ Lost → s.whole ≡ false }
{}

/// A run is lost only where its worker was lost.
pub fn a_lost_run_had_its_worker_lost<T>()
    ensures { (s : Setting T) (worker : WorkerId) (is_so : Past → Bool) (run : Run)
        (before after : Events T) →
        IsRun s worker is_so run before after → run.end ≡ Lost →
        (more : Events T) × (after ≡ more ++ before)
        × (list_any (is_loss worker) more ≡ true) }
{}
