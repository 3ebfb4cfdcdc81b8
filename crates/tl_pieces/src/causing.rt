//! Why lines are not answered.

ghost use Rattle.std.specs.Prelude.{◌≡◌, ℕ, false, List, Option, Err};
ghost use Rattle.tl_types.specs.declared.worker_id.WorkerId.{WorkerId};
ghost use Rattle.tl_model.specs.declared.answer.ClientError.{ClientError};
ghost use Rattle.tl_model.specs.declared.answer.ClientError.TheVariants.{Damaged, NoMemory, StoreFault};
ghost use Rattle.tl_model.specs.declared.answer.Damage.{Damage};
ghost use Rattle.tl_model.specs.declared.command.Command.{Command};
ghost use Rattle.tl_model.specs.Namespace.{PathOf};
ghost use Rattle.tl_pieces.specs.Faults.{FaultCount, StoreFailed};
ghost use Rattle.tl_pieces.specs.Lines.{
  IsCollectLine,
  IsLoseLine,
  IsNamesLine,
  IsPutLine,
  IsReadLine,
  IsSaveLine,
  IsTryLine,
  IsWorkLine,
};
ghost use Rattle.tl_pieces.specs.Setting.{Setting, Events};

/// Lines that use no checkpoint store fail for want of memory alone.
pub fn lines_without_a_store_fail_for_memory_alone<T>()
    ensures names { (s : Setting T) (count : FaultCount) (command : Command T)
        (before after : Events T) (error : ClientError) →
        IsNamesLine s count command before after (Err error) → error ≡ NoMemory }
    ensures losses { (s : Setting T) (count : FaultCount) (worker : WorkerId)
        (before after : Events T) (error : ClientError) →
        IsLoseLine s count worker before after (Err error) → error ≡ NoMemory }
    ensures collections { (s : Setting T) (count : FaultCount) (n : ℕ)
        (before after : Events T) (error : ClientError) →
        IsCollectLine s count n before after (Err error) → error ≡ NoMemory }
{}

/// No damage is told of a checkpoint store that gives back what it was given, and none by lines
/// that load nothing.
pub fn damage_is_of_a_store_that_tells_nothing<T>()
    ensures reads { (s : Setting T) (count : FaultCount) (command : Command T)
        (before after : Events T) (number : Option ℕ) (damage : Damage) →
        IsReadLine s count command before after (Err (Damaged number damage)) →
        s.tells ≡ false }
    ensures tries { (s : Setting T) (count : FaultCount) (command : Command T)
        (before after : Events T) (number : Option ℕ) (damage : Damage) →
        IsTryLine s count command before after (Err (Damaged number damage)) →
        s.tells ≡ false }
    ensures work { (s : Setting T) (count : FaultCount) (worker : WorkerId) (n : ℕ)
        (before after : Events T) (number : Option ℕ) (damage : Damage) →
        IsWorkLine s count worker n before after (Err (Damaged number damage)) →
        s.tells ≡ false }
    ensures puts { (s : Setting T) (count : FaultCount) (path : PathOf) (text : List ℕ)
        (before after : Events T) (number : Option ℕ) (damage : Damage) →
        IsPutLine s count path text before after (Err (Damaged number damage)) → ⊥ }
    ensures saves { (s : Setting T) (count : FaultCount) (n : ℕ)
        (before after : Events T) (number : Option ℕ) (damage : Damage) →
        IsSaveLine s count n before after (Err (Damaged number damage)) → ⊥ }
{}

/// A store fault is told only where the store's count of faults rose.
pub fn store_faults_are_counted<T>()
    ensures puts { (s : Setting T) (count : FaultCount) (path : PathOf) (text : List ℕ)
        (before after : Events T) (number : Option ℕ) →
        IsPutLine s count path text before after (Err (StoreFault number)) → StoreFailed count }
    ensures reads { (s : Setting T) (count : FaultCount) (command : Command T)
        (before after : Events T) (number : Option ℕ) →
        IsReadLine s count command before after (Err (StoreFault number)) → StoreFailed count }
    ensures tries { (s : Setting T) (count : FaultCount) (command : Command T)
        (before after : Events T) (number : Option ℕ) →
        IsTryLine s count command before after (Err (StoreFault number)) → StoreFailed count }
    ensures work { (s : Setting T) (count : FaultCount) (worker : WorkerId) (n : ℕ)
        (before after : Events T) (number : Option ℕ) →
        IsWorkLine s count worker n before after (Err (StoreFault number)) → StoreFailed count }
    ensures saves { (s : Setting T) (count : FaultCount) (n : ℕ)
        (before after : Events T) (number : Option ℕ) →
        IsSaveLine s count n before after (Err (StoreFault number)) → StoreFailed count }
{}
