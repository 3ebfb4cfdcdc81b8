//! What the lines of reads add to a journal: a call first, and last what ended the read.

ghost use Rattle.std.specs.Prelude.{ℕ, [], ◌∷◌, ◌++◌};
ghost use Rattle.tl_types.specs.declared.file_id.FileId.{FileId};
ghost use Rattle.tl_types.specs.Block.{FileOutcome};
ghost use Rattle.tl_model.specs.declared.command.Command.{Command};
ghost use Rattle.tl_model.specs.declared.event.Act.TheVariants.{Call, Shut};
ghost use Rattle.tl_model.specs.declared.reply.Reply.TheVariants.{Opened};
ghost use Rattle.tl_pieces.specs.Own.{Adds};
ghost use Rattle.tl_pieces.specs.Reading.{
  IsNotYet,
  IsReadGivenUp,
  IsReadOut,
  IsTriedOut,
  IsTryGivenUp,
  served_of,
};
ghost use Rattle.tl_pieces.specs.Runs.{runs_of};
ghost use Rattle.tl_pieces.specs.Setting.{Setting, Events, event_by};

/// A read that waited and was served adds its call, its runs and its Served, after a Load where the
/// file was in no memory.
pub fn a_served_read_adds_its_call_runs_and_end<T>()
    ensures { (s : Setting T) (command : Command T) (number : ℕ) (block : FileOutcome)
        (before after : Events T) → (read : IsReadOut s command number block before after) →
        Adds s (served_of s block.file read.served.digest read.served.found_at
        ++ (runs_of s.actor s.worker read.runs
        ++ event_by s.actor (Call command (Opened block.file)) ∷ [])) before after }
{}

/// A read that waited and was given up adds its call, its runs and its Shut.
pub fn a_read_given_up_adds_its_call_runs_and_end<T>()
    ensures { (s : Setting T) (command : Command T) (number : ℕ) (before after : Events T) →
        (read : IsReadGivenUp s command number before after) →
        Adds s (event_by s.actor (Shut read.file) ∷ (runs_of s.actor s.worker read.runs
        ++ event_by s.actor (Call command (Opened read.file)) ∷ [])) before after }
{}

/// A read that looked once adds its call and its end.
pub fn a_try_adds_its_call_and_end<T>()
    ensures served { (s : Setting T) (command : Command T) (number : ℕ) (block : FileOutcome)
        (before after : Events T) → (read : IsTriedOut s command number block before after) →
        Adds s (served_of s block.file read.served.digest read.served.found_at
        ++ event_by s.actor (Call command (Opened block.file)) ∷ []) before after }
    ensures not_yet { (s : Setting T) (command : Command T) (number : ℕ) (file : FileId)
        (before after : Events T) → IsNotYet s command number file before after →
        Adds s (event_by s.actor (Shut file)
        ∷ event_by s.actor (Call command (Opened file)) ∷ []) before after }
    ensures given_up { (s : Setting T) (command : Command T) (number : ℕ)
        (before after : Events T) → (read : IsTryGivenUp s command number before after) →
        Adds s (event_by s.actor (Shut read.file)
        ∷ event_by s.actor (Call command (Opened read.file)) ∷ []) before after }
{}
