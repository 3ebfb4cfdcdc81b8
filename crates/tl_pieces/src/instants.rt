//! Moments of a journal, and of a longer one.

ghost use Rattle.std.specs.Prelude.{◌≡◌, Bool, true, [], ◌++◌};
ghost use Rattle.tl_model.specs.Past.{Past, without_tickets};
ghost use Rattle.tl_pieces.specs.Moments.{Moment, is_quiet_end};
ghost use Rattle.tl_pieces.specs.Own.{Adds};
ghost use Rattle.tl_pieces.specs.Setting.{Setting, Events};

/// What is so at a quiet end is so at a moment of it.
pub fn now_is_a_moment<T>()
    ensures { (s : Setting T) (is_so : Past → Bool) (events : Events T) →
        is_quiet_end s events ≡ true → is_so (without_tickets events) ≡ true →
        Moment s is_so events events }
{}

/// A moment of a journal is one of each longer journal, whoever made it longer.
pub fn a_moment_is_one_of_the_longer_journal<T>()
    ensures { (s : Setting T) (is_so : Past → Bool) (before after more : Events T) →
        Moment s is_so before after → Moment s is_so before (more ++ after) }
{}

/// A moment after some events is one after more events of others.
pub fn a_moment_is_one_after_others_events<T>()
    ensures { (s : Setting T) (is_so : Past → Bool) (earlier before after : Events T) →
        Adds s [] earlier before → Moment s is_so earlier after → Moment s is_so before after }
{}
