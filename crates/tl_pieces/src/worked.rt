//! Short journals of whom each kind of line can be said.

ghost use Rattle.std.specs.Prelude.{◌≡◌, ℕ, List, [], ◌∷◌, Ok, length, true};
ghost use Rattle.tl_types.specs.declared.digest.Digest.{Digest};
ghost use Rattle.tl_types.specs.declared.outcome.Outcome.TheVariants.{Value};
ghost use Rattle.tl_types.specs.declared.worker_id.WorkerId.{WorkerId};
ghost use Rattle.tl_types.specs.Outcome.{digest_of};
ghost use Rattle.tl_model.specs.declared.answer.Answer.TheVariants.{Count, Lost, Read, Said};
ghost use Rattle.tl_model.specs.declared.answer.Counted.TheVariants as counted;
ghost use Rattle.tl_model.specs.declared.event.Act.TheVariants.{Lose};
ghost use Rattle.tl_model.specs.declared.reply.Reply.TheVariants.{Made};
ghost use Rattle.tl_pieces.specs.Faults.{FaultCount};
ghost use Rattle.tl_pieces.specs.Lines.{
  IsCollectLine,
  IsLoseLine,
  IsPutLine,
  IsReadLine,
  IsSaveLine,
  IsTryLine,
  IsWorkLine,
};
ghost use Rattle.tl_pieces.specs.Setting.{Setting, Events, event_by};
ghost use Rattle.tl_pieces.specs.Worked.{a_file, after_put, after_read, read_of, the_path};

/// A text is put, and then read from the checkpoint store; a read that looks once finds the same.
pub fn a_put_and_a_read_are_lines<T>()
    ensures puts { (s : Setting T) (count : FaultCount) (text : List ℕ) (digest : Digest)
        (ticket : T) → digest.0 ≡ digest_of (Value text) →
        (s.tells ≡ true → s.content ticket ≡ text) →
        IsPutLine s count the_path text [] (after_put s text digest ticket)
        (Ok (Said 0 (Made (record { 0 = 0 })))) }
    ensures reads { (s : Setting T) (count : FaultCount) (text : List ℕ) (digest : Digest)
        (ticket : T) → digest.0 ≡ digest_of (Value text) →
        (s.tells ≡ true → s.content ticket ≡ text) →
        IsReadLine s count read_of (after_put s text digest ticket)
        (after_read s text digest ticket)
        (Ok (Read 1 (record { file = a_file; outcome = Value text }))) }
    ensures tries { (s : Setting T) (count : FaultCount) (text : List ℕ) (digest : Digest)
        (ticket : T) → digest.0 ≡ digest_of (Value text) →
        (s.tells ≡ true → s.content ticket ≡ text) →
        IsTryLine s count read_of (after_put s text digest ticket)
        (after_read s text digest ticket)
        (Ok (Read 1 (record { file = a_file; outcome = Value text }))) }
{}

/// In an empty journal nothing is run, saved or let go, and a worker can be lost.
pub fn an_empty_journal_has_its_lines<T>()
    ensures work { (s : Setting T) (count : FaultCount) (worker : WorkerId) (n : ℕ) →
        IsWorkLine s count worker n [] [] (Ok (Count counted.Work 0)) }
    ensures saves { (s : Setting T) (count : FaultCount) (n : ℕ) →
        IsSaveLine s count n [] [] (Ok (Count counted.Save 0)) }
    ensures collections { (s : Setting T) (count : FaultCount) (n : ℕ) →
        IsCollectLine s count n [] [] (Ok (Count counted.Collect 0)) }
    ensures losses { (s : Setting T) (count : FaultCount) (worker : WorkerId) →
        IsLoseLine s count worker [] (event_by s.actor (Lose worker) ∷ []) (Ok (Lost worker)) }
{}
