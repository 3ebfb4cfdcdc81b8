//! The words that replies begin with.

ghost use Rattle.std.specs.Prelude.{◌≡◌, ◌≢◌, IfSome, IfNone};
ghost use Rattle.tl_reading.specs.Replies.{saying_text};

use crate::table::find;

/// The word that a reply begins with.
#[derive(Clone, Copy, Debug, PartialEq, Eq)]
pub enum Saying {
    Made,
    Fine,
    Opened,
    Listed,
    Stated,
    Exists,
    NoSuch,
    NotFile,
    NotDir,
    NotEmpty,
    TooDeep,
    IntoItself,
    TooMany,
}

const SAYINGS: [(&[u8], Saying); 13] = [
    (b"made", Saying::Made),
    (b"ok", Saying::Fine),
    (b"open", Saying::Opened),
    (b"list", Saying::Listed),
    (b"stat", Saying::Stated),
    (b"exists", Saying::Exists),
    (b"nosuch", Saying::NoSuch),
    (b"notfile", Saying::NotFile),
    (b"notdir", Saying::NotDir),
    (b"notempty", Saying::NotEmpty),
    (b"toodeep", Saying::TooDeep),
    (b"intoitself", Saying::IntoItself),
    (b"toomany", Saying::TooMany),
];

/// The word of a reply that these bytes spell.
pub fn saying_of(word: &[u8]) -> Option<Saying>
    ensures found { IfSome result (λ saying. word.now ≡ saying_text saying) }
    ensures none { IfNone result ((saying : Saying) → word.now ≢ saying_text saying) }
{
    find(&SAYINGS, word)
}
