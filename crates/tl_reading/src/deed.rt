//! The words of the acts.

ghost use Rattle.std.specs.Prelude.{◌≡◌, ◌≢◌, IfSome, IfNone};
ghost use Rattle.tl_reading.specs.Acts.{deed_text};

use crate::table::find;

/// The word that says what is done in an event.
#[derive(Clone, Copy, Debug, PartialEq, Eq)]
pub enum Deed {
    Call,
    Served,
    Shut,
    Claim,
    Done,
    Back,
    Lose,
    Free,
    Drop,
    Load,
    Save,
    Saved,
    Unsave,
    Collect,
}

const DEEDS: [(&[u8], Deed); 14] = [
    (b"call", Deed::Call),
    (b"served", Deed::Served),
    (b"shut", Deed::Shut),
    (b"claim", Deed::Claim),
    (b"done", Deed::Done),
    (b"back", Deed::Back),
    (b"lose", Deed::Lose),
    (b"free", Deed::Free),
    (b"drop", Deed::Drop),
    (b"load", Deed::Load),
    (b"save", Deed::Save),
    (b"saved", Deed::Saved),
    (b"unsave", Deed::Unsave),
    (b"collect", Deed::Collect),
];

/// The deed that these bytes spell.
pub fn deed_of(word: &[u8]) -> Option<Deed>
    ensures found { IfSome result (λ deed. word.now ≡ deed_text deed) }
    ensures none { IfNone result ((deed : Deed) → word.now ≢ deed_text deed) }
{
    find(&DEEDS, word)
}
