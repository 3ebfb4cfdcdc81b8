//! What is more where an actor has the journal to itself.

ghost use Rattle.std.specs.Prelude.{◌≡◌, ℕ, true, Ok};
ghost use Rattle.tl_types.specs.declared.file_id.FileId.{FileId};
ghost use Rattle.tl_types.specs.Block.{FileOutcome};
ghost use Rattle.tl_model.specs.declared.answer.Answer.TheVariants.{Read};
ghost use Rattle.tl_model.specs.declared.command.Command.{Command};
ghost use Rattle.tl_model.specs.declared.reply.Reply.{Reply};
ghost use Rattle.tl_model.specs.declared.reply.Reply.TheVariants.{Opened};
ghost use Rattle.tl_model.specs.History.{calls_of, reply_after};
ghost use Rattle.tl_model.specs.Journal.{call_count};
ghost use Rattle.tl_pieces.specs.Calls.{IsCalled};
ghost use Rattle.tl_pieces.specs.Faults.{FaultCount};
ghost use Rattle.tl_pieces.specs.Lines.{IsReadLine};
ghost use Rattle.tl_pieces.specs.Setting.{Setting, Events};

/// A call has the number and the reply that the journal before the line determines.
pub fn an_owners_call_is_answered_by_what_stood<T>()
    ensures { (s : Setting T) (command : Command T) (number : ℕ) (reply : Reply)
        (before after : Events T) → s.whole ≡ true →
        IsCalled s command number reply before after →
        (number ≡ call_count before) × (reply ≡ reply_after (calls_of before) command) }
{}

/// A read is answered by the file that it opens, and by no other that has had, or gets, its path.
pub fn an_owners_read_is_of_the_opened_file<T>()
    ensures { (s : Setting T) (count : FaultCount) (command : Command T) (number : ℕ)
        (block : FileOutcome) (f : FileId) (before after : Events T) → s.whole ≡ true →
        reply_after (calls_of before) command ≡ Opened f →
        IsReadLine s count command before after (Ok (Read number block)) → block.file ≡ f }
{}
