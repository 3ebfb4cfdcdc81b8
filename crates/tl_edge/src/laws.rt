//! Laws that say which file an event leaves without a name. Each is the contract of a function with an
//! empty body.

ghost use Rattle.std.specs.Prelude.{◌≡◌, ◌∷◌, List, None, false, true};
ghost use Rattle.tl_model.specs.declared.command.Command.TheVariants.{Delete};
ghost use Rattle.tl_model.specs.declared.reply.Reply.TheVariants.{Fine};
ghost use Rattle.tl_model.specs.declared.event.Act.TheVariants.{Call};
ghost use Rattle.tl_model.specs.declared.event.Event.{Event};
ghost use Rattle.tl_model.specs.declared.header.Header.{Header};
ghost use Rattle.tl_model.specs.History.{names};
ghost use Rattle.tl_model.specs.Namespace.{PathOf, node_at};
ghost use Rattle.tl_model.specs.Past.{act_with, event_with, without_tickets};
ghost use Rattle.tl_model.specs.Rules.{Judge, all_permitted};
ghost use Rattle.tl_steps.specs.Steps.{UnnamesOnly};
ghost use Rattle.tl_edge.specs.Names.{HasFilesOnce, HasPathsOnce, deletes, file_in};

/// An event of a journal whose events are permitted that is no delete, or one that was not answered as
/// done, leaves no file without a name.
pub fn only_deletes_unname<T>()
    ensures { (judge : Judge T) (header : Header) (event : Event T) (past : List (Event T)) →
        all_permitted judge header (event ∷ past) ≡ true →
        deletes (act_with (λ _. tt) event.act) ≡ false →
        UnnamesOnly (without_tickets past) (event_with (λ _. tt) event) None }
{}

/// In a journal whose events are permitted each path stands once among the names (`paths`), and each
/// file (`files`).
pub fn each_name_stands_once<T>()
    ensures paths { (judge : Judge T) (header : Header) (past : List (Event T)) →
        all_permitted judge header past ≡ true →
        HasPathsOnce (names (without_tickets past)) }
    ensures files { (judge : Judge T) (header : Header) (past : List (Event T)) →
        all_permitted judge header past ≡ true →
        HasFilesOnce (names (without_tickets past)) }
{}

/// A delete of a journal whose events are permitted that was answered as done leaves the file at its
/// path without a name, and no other; of a directory none.
pub fn a_delete_unnames_its_file<T>()
    ensures { (judge : Judge T) (header : Header) (event : Event T) (past : List (Event T)) →
        all_permitted judge header (event ∷ past) ≡ true →
        (path : PathOf) → event.act ≡ Call (Delete path) Fine →
        UnnamesOnly (without_tickets past) (event_with (λ _. tt) event)
        (file_in (node_at (names (without_tickets past)) path)) }
{}
