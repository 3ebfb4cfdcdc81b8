//! A fact about texts that are no journal, as the contract of a function that does nothing.

ghost use Rattle.std.specs.Prelude.{◌≡◌, ℕ, List};
ghost use Rattle.tl_reading.specs.Journals.{IsFirstUnread};

/// No text is unread at two lines.
pub fn one_unread()
    ensures { (text : List ℕ) (line other : ℕ) → IsFirstUnread text line
        → IsFirstUnread text other → line ≡ other }
{}
