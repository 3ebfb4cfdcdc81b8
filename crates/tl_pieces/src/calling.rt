//! What a call adds to a journal.

ghost use Rattle.std.specs.Prelude.{ℕ};
ghost use Rattle.tl_model.specs.declared.command.Command.{Command};
ghost use Rattle.tl_model.specs.declared.reply.Reply.{Reply};
ghost use Rattle.tl_pieces.specs.Calls.{IsCalled, call_of};
ghost use Rattle.tl_pieces.specs.Own.{Adds};
ghost use Rattle.tl_pieces.specs.Setting.{Setting, Events};

/// A call adds itself and what follows it, and nothing else of its actor.
pub fn a_call_adds_itself_and_what_follows<T>()
    ensures { (s : Setting T) (command : Command T) (number : ℕ) (reply : Reply)
        (before after : Events T) → (call : IsCalled s command number reply before after) →
        Adds s (call_of s.actor command reply call.called_at) before after }
{}
