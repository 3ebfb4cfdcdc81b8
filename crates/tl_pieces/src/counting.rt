//! What is done so many times adds its events in order, and stops early for one reason alone.

ghost use Rattle.std.specs.Prelude.{◌<◌, ℕ, List, map, Ok};
ghost use Rattle.tl_types.specs.declared.record_id.RecordId.{RecordId};
ghost use Rattle.tl_types.specs.declared.worker_id.WorkerId.{WorkerId};
ghost use Rattle.tl_model.specs.declared.answer.Answer.TheVariants.{Count};
ghost use Rattle.tl_model.specs.declared.answer.Counted.TheVariants as counted;
ghost use Rattle.tl_pieces.specs.Counts.{
  LetGo,
  SaveOf,
  Saving,
  collect_of,
  nothing_is_next,
  nothing_is_unneeded,
  nothing_to_save,
  saves_of,
};
ghost use Rattle.tl_pieces.specs.Faults.{FaultCount};
ghost use Rattle.tl_pieces.specs.Lines.{IsCollectLine, IsSaveLine, IsWorkLine};
ghost use Rattle.tl_pieces.specs.Moments.{Moment};
ghost use Rattle.tl_pieces.specs.Own.{Adds};
ghost use Rattle.tl_pieces.specs.Setting.{Setting, Events};

/// Saves add their Saves and their ends, one save after another.
pub fn saves_add_their_begin_and_end<T>()
    ensures { (s : Setting T) (saves : List SaveOf) (before after : Events T) →
        Saving s saves before after → Adds s (saves_of s.actor saves) before after }
{}

/// Records that are let go add a Collect each.
pub fn collections_add_their_records<T>()
    ensures { (s : Setting T) (records : List RecordId) (before after : Events T) →
        LetGo s records before after → Adds s (map (collect_of s.actor) records) before after }
{}

/// Fewer than asked for are counted only where there was a moment, by which all of the line was
/// done, at which nothing was left to do.
pub fn counts_fall_short_for_a_reason<T>()
    ensures work { (s : Setting T) (count : FaultCount) (worker : WorkerId) (n k : ℕ)
        (before after : Events T) →
        IsWorkLine s count worker n before after (Ok (Count counted.Work k)) → k < n →
        Moment s (nothing_is_next s.header) after after }
    ensures saves { (s : Setting T) (count : FaultCount) (n k : ℕ) (before after : Events T) →
        IsSaveLine s count n before after (Ok (Count counted.Save k)) → k < n →
        Moment s (nothing_to_save s.header) after after }
    ensures collections { (s : Setting T) (count : FaultCount) (n k : ℕ)
        (before after : Events T) →
        IsCollectLine s count n before after (Ok (Count counted.Collect k)) → k < n →
        Moment s nothing_is_unneeded after after }
{}
