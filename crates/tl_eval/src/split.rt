ghost use Rattle.std.specs.Prelude.{◌≡◌, ◌<◌, ◌∷◌, [], ◌==◌, length, ◌++◌, IfOk, IfSome, MatchOption, MatchBool};
ghost use Rattle.std.specs.List.{slice_split};
ghost use Rattle.tl_eval.specs.Held.{answered};
ghost use Rattle.tl_eval.specs.Pieces.{IsOverLimits};
ghost use Rattle.tl_lang.specs.Lists.{lines as lines_of, split as pieces_of};
ghost use Rattle.tl_lang.specs.Value.{is_list, list_within};

use crate::answer::Answer;
use crate::fault::Fault;
use crate::gathered::Gathered;
use crate::text::Text;
use memchr::memchr;
use std::alloc::Global;
use tl_types::{Bytes, NoMemory};

/// The pieces of `text` between the occurrences of the one byte of `separator`.
pub fn split(alloc: Global, text: &[u8], separator: &[u8]) -> Result<Answer, NoMemory>
    ensures { IfOk result (λ answer. answered answer ≡ pieces_of text.now separator.now) }
{
    if separator.len() != 1 {
        return Ok(Err(Fault::OutOfRange));
    }
    let Some((pieces, last)) = front_pieces(alloc, text, separator[0])? else {
        return Ok(Err(Fault::TooLong));
    };
    with_last(alloc, pieces, last)
}

/// The pieces of `text` between line feeds, without an empty last one.
pub fn lines(alloc: Global, text: &[u8]) -> Result<Answer, NoMemory>
    ensures { IfOk result (λ answer. answered answer ≡ lines_of text.now) }
{
    let Some((pieces, last)) = front_pieces(alloc, text, b'\n')? else {
        return Ok(Err(Fault::TooLong));
    };
    if last.is_empty() {
        return Ok(Ok(pieces.into_list(alloc)?));
    }
    with_last(alloc, pieces, last)
}

/// The list of the pieces and a last one.
fn with_last(alloc: Global, pieces: Gathered, last: &[u8]) -> Result<Answer, NoMemory>
    ensures { IfOk result (λ answer. answered answer ≡ list_within (pieces ++ last.now ∷ [])) }
{
    let mut pieces = pieces;
    let fits = gather(alloc, &mut pieces, last)?;
    if !fits {
        return Ok(Err(Fault::TooLong));
    }
    Ok(Ok(pieces.into_list(alloc)?))
}

/// All pieces of `text` between the occurrences of `byte` but the last, and the last; `None` where
/// they are too long for a list.
fn front_pieces<'a>(
    alloc: Global,
    text: &'a [u8],
    byte: u8,
) -> Result<Option<(Gathered, &'a [u8])>, NoMemory>
    ensures { IfOk result (λ found. MatchOption found
        (IsOverLimits (slice_split (λ c. c == byte) text.now))
        (λ p. slice_split (λ c. c == byte) text.now ≡ p.0 ++ p.1.now ∷ [])) }
{
    let mut pieces = Gathered::new(alloc);
    let mut rest = text;
    while let Some((piece, after)) = cut(rest, byte) {
        let fits = gather(alloc, &mut pieces, piece)?;
        if !fits {
            return Ok(None);
        }
        rest = after;
    }
    Ok(Some((pieces, rest)))
}

/// Adds a copy of these bytes as a text; false where the list would be over its limits.
fn gather(alloc: Global, pieces: &mut Gathered, bytes: &[u8]) -> Result<bool, NoMemory>
    ensures fits { IfOk result (λ fits. fits ≡ is_list (pieces.old ++ bytes.now ∷ [])) }
    ensures added { IfOk result (λ fits. MatchBool fits (pieces.new ≡ pieces.old ++ bytes.now ∷ []) (pieces.new ≡ pieces.old)) }
{
    match Bytes::new(bytes.to_vec(alloc)?) {
        Some(bytes) => pieces.push(Text::new(alloc, bytes)?),
        None => Ok(false),
    }
}

/// The bytes before the first `byte` and those after it; `None` where it does not occur.
fn cut(text: &[u8], byte: u8) -> Option<(&[u8], &[u8])>
    ensures cut { MatchOption result
        (slice_split (λ c. c == byte) text.now ≡ text.now ∷ [])
        (λ p. slice_split (λ c. c == byte) text.now ≡ p.0.now ∷ slice_split (λ c. c == byte) p.1.now) }
    ensures shorter { IfSome result (λ p. length p.1.now < length text.now) }
{
    let place = memchr(byte, text)?;
    let (piece, rest) = text.split_at(place);
    let (_, after) = rest.split_at(1);
    Some((piece, after))
}
