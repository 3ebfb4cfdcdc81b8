//! Facts about journals as texts, each as the contract of a function that does nothing.

ghost use Rattle.std.specs.Prelude.{◌≡◌, ◌<◌, ◌^◌, ℕ, List, map};
ghost use Rattle.tl_model.specs.declared.command.Command.{Command};
ghost use Rattle.tl_model.specs.declared.event.Event.{Event};
ghost use Rattle.tl_model.specs.declared.header.Header.{Header};
ghost use Rattle.tl_script.specs.Commands.{IsOp, Says};
ghost use Rattle.tl_spelling.specs.Commands.{op_of, command_text};
ghost use Rattle.tl_spelling.specs.Events.{event_text};
ghost use Rattle.tl_spelling.specs.Journals.{spelled_journal};
ghost use Rattle.tl_spelling.specs.Shown.{IsEvent, IsJournal, shown, shown_command};

/// A command's text in a journal says, in a script of the journal's header, that command.
pub fn as_in_a_script()
    ensures { (header : Header) (command : Command (List ℕ)) → IsOp header (op_of command)
        → Says header (command_text command) (op_of command) }
{}

/// No text is two commands: a put is known but for what its bytes stand for.
pub fn one_command()
    ensures { (header : Header) (command other : Command (List ℕ)) → header.workers < 2 ^ 8
        → IsOp header (op_of command) → IsOp header (op_of other)
        → command_text command ≡ command_text other
        → shown_command command ≡ shown_command other }
{}

/// No text is two events: an event is known but for what its text does not show.
pub fn one_event()
    ensures { (header : Header) (event other : Event (List ℕ)) → header.workers < 2 ^ 8
        → IsEvent header event → IsEvent header other → event_text event ≡ event_text other
        → shown event ≡ shown other }
{}

/// No text is two journals: the header is known, and each event but for what its text does not
/// show.
pub fn one_journal()
    ensures { (header header' : Header) (events others : List (Event (List ℕ)))
        → IsJournal header events → IsJournal header' others
        → spelled_journal header events ≡ spelled_journal header' others
        → (header ≡ header') × (map shown events ≡ map shown others) }
{}
