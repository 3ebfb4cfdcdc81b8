//! What an actor adds to a journal, piece after piece.

ghost use Rattle.std.specs.Prelude.{◌≡◌, [], ◌++◌};
ghost use Rattle.tl_pieces.specs.Own.{Adds, own};
ghost use Rattle.tl_pieces.specs.Setting.{Setting, Events};

/// Where nothing came, the actor added nothing.
pub fn nothing_was_added<T>()
    ensures { (s : Setting T) (events : Events T) → Adds s [] events events }
{}

/// What was added first and what was added then were added together.
pub fn additions_follow_each_other<T>()
    ensures { (s : Setting T) (first then_ before between after : Events T) →
        Adds s first before between → Adds s then_ between after →
        Adds s (then_ ++ first) before after }
{}

/// What was added are the own events that the journal has more.
pub fn additions_are_own_events<T>()
    ensures { (s : Setting T) (mine before after : Events T) → Adds s mine before after →
        own s.actor after ≡ mine ++ own s.actor before }
{}
