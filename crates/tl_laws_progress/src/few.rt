//! How many tasks there can be.

ghost use Rattle.std.specs.Prelude.{◌≡◌, ◌<◌, ◌≤◌, ◌^◌, true, List, length};
ghost use Rattle.tl_model.specs.declared.event.Event.{Event};
ghost use Rattle.tl_model.specs.declared.header.Header.{Header};
ghost use Rattle.tl_model.specs.Past.{Past, without_tickets};
ghost use Rattle.tl_model.specs.Tables.{chosen};
ghost use Rattle.tl_model.specs.History.{records};
ghost use Rattle.tl_model.specs.Plan.{tasks};
ghost use Rattle.tl_model.specs.Replies.{record_limit};
ghost use Rattle.tl_model.specs.Rules.{is_lawful};

/// There are no more tasks than records (`among`). In a lawful journal there are no more records
/// than there may be (`limited`), and so fewer tasks than 64 bits can count (`few`).
pub fn tasks_are_few<T>()
    ensures among { (past : Past) → length (chosen (tasks past)) ≤ length (records past) }
    ensures limited { (header : Header) (events : List (Event T)) →
        is_lawful header events ≡ true →
        length (records (without_tickets events)) ≤ record_limit }
    ensures few { (header : Header) (events : List (Event T)) → is_lawful header events ≡ true →
        length (chosen (tasks (without_tickets events))) < 2 ^ 64 }
{}
