//! Lines stand where others' events came after them.

ghost use Rattle.std.specs.Prelude.{List, [], ℕ, Result};
ghost use Rattle.tl_types.specs.declared.worker_id.WorkerId.{WorkerId};
ghost use Rattle.tl_model.specs.declared.answer.Answer.{Answer};
ghost use Rattle.tl_model.specs.declared.answer.ClientError.{ClientError};
ghost use Rattle.tl_model.specs.declared.command.Command.{Command};
ghost use Rattle.tl_model.specs.Namespace.{PathOf};
ghost use Rattle.tl_pieces.specs.Faults.{FaultCount};
ghost use Rattle.tl_pieces.specs.Lines.{
  AddsSome,
  IsCollectLine,
  IsLoseLine,
  IsNamesLine,
  IsPutLine,
  IsReadLine,
  IsSaveLine,
  IsTryLine,
  IsWorkLine,
};
ghost use Rattle.tl_pieces.specs.Own.{Adds};
ghost use Rattle.tl_pieces.specs.Setting.{Setting, Events};

/// What a line leaves and answers is so where others' events came after it.
pub fn lines_stand_in_longer_journals<T>()
    ensures puts { (s : Setting T) (count : FaultCount) (before after later : Events T)
        (result : Result Answer ClientError) → Adds s [] after later →
        (path : PathOf) (text : List ℕ) → IsPutLine s count path text before after result →
        IsPutLine s count path text before later result }
    ensures names { (s : Setting T) (count : FaultCount) (before after later : Events T)
        (result : Result Answer ClientError) → Adds s [] after later →
        (command : Command T) → IsNamesLine s count command before after result →
        IsNamesLine s count command before later result }
    ensures reads { (s : Setting T) (count : FaultCount) (before after later : Events T)
        (result : Result Answer ClientError) → Adds s [] after later →
        (command : Command T) → IsReadLine s count command before after result →
        IsReadLine s count command before later result }
    ensures tries { (s : Setting T) (count : FaultCount) (before after later : Events T)
        (result : Result Answer ClientError) → Adds s [] after later →
        (command : Command T) → IsTryLine s count command before after result →
        IsTryLine s count command before later result }
    ensures losses { (s : Setting T) (count : FaultCount) (before after later : Events T)
        (result : Result Answer ClientError) → Adds s [] after later →
        (worker : WorkerId) → IsLoseLine s count worker before after result →
        IsLoseLine s count worker before later result }
    ensures work { (s : Setting T) (count : FaultCount) (before after later : Events T)
        (result : Result Answer ClientError) → Adds s [] after later →
        (worker : WorkerId) (n : ℕ) → IsWorkLine s count worker n before after result →
        IsWorkLine s count worker n before later result }
    ensures saves { (s : Setting T) (count : FaultCount) (before after later : Events T)
        (result : Result Answer ClientError) → Adds s [] after later →
        (n : ℕ) → IsSaveLine s count n before after result →
        IsSaveLine s count n before later result }
    ensures collections { (s : Setting T) (count : FaultCount) (before after later : Events T)
        (result : Result Answer ClientError) → Adds s [] after later →
        (n : ℕ) → IsCollectLine s count n before after result →
        IsCollectLine s count n before later result }
{}

/// Whatever a line leaves and answers, it adds some events of its actor's own to the journal before
/// it.
pub fn lines_add_to_the_journal<T>()
    ensures puts { (s : Setting T) (count : FaultCount) (before after : Events T)
        (result : Result Answer ClientError) (path : PathOf) (text : List ℕ) →
        IsPutLine s count path text before after result → AddsSome s before after }
    ensures names { (s : Setting T) (count : FaultCount) (before after : Events T)
        (result : Result Answer ClientError) (command : Command T) →
        IsNamesLine s count command before after result → AddsSome s before after }
    ensures reads { (s : Setting T) (count : FaultCount) (before after : Events T)
        (result : Result Answer ClientError) (command : Command T) →
        IsReadLine s count command before after result → AddsSome s before after }
    ensures tries { (s : Setting T) (count : FaultCount) (before after : Events T)
        (result : Result Answer ClientError) (command : Command T) →
        IsTryLine s count command before after result → AddsSome s before after }
    ensures losses { (s : Setting T) (count : FaultCount) (before after : Events T)
        (result : Result Answer ClientError) (worker : WorkerId) →
        IsLoseLine s count worker before after result → AddsSome s before after }
    ensures work { (s : Setting T) (count : FaultCount) (before after : Events T)
        (result : Result Answer ClientError) (worker : WorkerId) (n : ℕ) →
        IsWorkLine s count worker n before after result → AddsSome s before after }
    ensures saves { (s : Setting T) (count : FaultCount) (before after : Events T)
        (result : Result Answer ClientError) (n : ℕ) →
        IsSaveLine s count n before after result → AddsSome s before after }
    ensures collections { (s : Setting T) (count : FaultCount) (before after : Events T)
        (result : Result Answer ClientError) (n : ℕ) →
        IsCollectLine s count n before after result → AddsSome s before after }
{}
