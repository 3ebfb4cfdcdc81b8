//! The tokens of a line. A reader is given what stands behind the token before, which is empty or
//! begins with a space, and hands out what stands behind its own token.

ghost use Rattle.std.specs.Prelude.{◌≡◌, ◌+◌, ◌<◌, ◌≤◌, ℕ, List, [], ◌∷◌, ◌++◌, length, IfSome, IfNone, IfOk, IfErr, OnOk, MatchBool};
ghost use Rattle.std.specs.List.{All};
ghost use Rattle.tl_text.specs.PathText.{EndsToken};
ghost use Rattle.tl_script.specs.Lines.{IsOther};
ghost use Rattle.tl_script.specs.Tokens.{a_verb, a_mark, a_number, a_path, a_text, Stands};
ghost use Rattle.tl_script.specs.Places.{Place, path_then, number_then, text_then, end, Refused, Follows, client, client_limit, text_limit};
ghost use Rattle.tl_script.specs.Reading.{StopsAs};
ghost use Rattle.tl_model.specs.declared.header.Header.{Header};

use crate::bad_kind::BadKind;
use crate::stop::Stop;
use crate::word::{Mark, Verb, verb_of};
use memchr::memchr;
use std::alloc::{AllocError, Global};
use tl_text::{TextError, read_number, read_path, read_quoted};
use tl_types::{Bytes, PRIO_LIMIT, Path};

const SPACE: u8 = b' ';

/// How many priorities there are.
pub(crate) const PRIO_COUNT: u64 = PRIO_LIMIT as u64 + 1;

/// The greatest number of a client.
pub const CLIENT_LIMIT: u8 = 7;

/// Whether a token ends where this text begins.
fn ends_token(text: &[u8]) -> bool
    ensures { MatchBool result (EndsToken text.now) (¬ EndsToken text.now) }
{
    match text.split_first() {
        None => true,
        Some((first, _)) => *first == SPACE,
    }
}

/// What stands behind the space.
pub fn front_of(text: &[u8]) -> Option<&[u8]>
    requires { EndsToken text.now }
    ensures found { IfSome result (λ front. text.now ≡ 0x20 ∷ front.now) }
    ensures none { IfNone result (text.now ≡ []) }
{
    match text.split_first() {
        None => None,
        Some((_, front)) => Some(front),
    }
}

/// The bytes up to the first space, and the rest.
pub fn token_of(front: &[u8]) -> (&[u8], &[u8])
    ensures cut { front.now ≡ result.0.now ++ result.1.now }
    ensures token { All (IsOther 32) result.0.now }
    ensures ended { EndsToken result.1.now }
{
    let len = memchr(SPACE, front).unwrap_or(front.len());
    front.split_at(len)
}

/// The word of a command that stands first.
pub(crate) fn verb_at(front: &[u8]) -> Option<(Verb, &[u8])>
    ensures found { IfSome result (λ r. Stands front.now (a_verb r.0) r.1.now) }
    ensures none { IfNone result ((v : Verb) (rest : List ℕ) → ¬ Stands front.now (a_verb v) rest) }
{
    let (word, rest) = token_of(front);
    let verb = verb_of(word)?;
    Some((verb, rest))
}

/// What follows the word, where it stands next.
pub(crate) fn after_mark<'a>(text: &'a [u8], word: Mark) -> Option<&'a [u8]>
    requires { EndsToken text.now }
    ensures found { IfSome result (λ rest. Follows text.now (a_mark word) rest.now) }
    ensures ended { IfSome result (λ rest. EndsToken rest.now) }
    ensures none { IfNone result ((rest : List ℕ) → ¬ Follows text.now (a_mark word) rest) }
{
    let rest = front_of(text)?.strip_prefix(word.text())?;
    if ends_token(rest) { Some(rest) } else { None }
}

/// The number, at least `low` and below `below`, that stands first, up to a space or the end.
pub fn number_at(front: &[u8], low: u64, below: u64) -> Option<(u64, &[u8])>
    ensures found { IfSome result (λ r. Stands front.now (a_number r.0) r.1.now) }
    ensures within { IfSome result (λ r. (low ≤ r.0) × (r.0 < below)) }
    ensures none { IfNone result ((n : ℕ) (rest : List ℕ) → low ≤ n → n < below → ¬ Stands front.now (a_number n) rest) }
{
    let Ok((number, end)) = read_number(front, 0) else {
        return None;
    };
    let (_, rest) = front.split_at(end);
    if !ends_token(rest) {
        return None;
    }
    if number < low || below <= number {
        return None;
    }
    Some((number, rest))
}

/// The client that stands first.
pub(crate) fn client_at(front: &[u8]) -> Option<(u8, &[u8])>
    ensures found { IfSome result (λ r. Stands front.now (a_number r.0) r.1.now) }
    ensures within { IfSome result (λ r. r.0 ≤ client_limit) }
    ensures none { IfNone result ((n : ℕ) (rest : List ℕ) → n ≤ client_limit → ¬ Stands front.now (a_number n) rest) }
{
    let (number, rest) = number_at(front, 0, u64::from(CLIENT_LIMIT) + 1)?;
    Some((number as u8, rest))
}

/// Reads a number that is at least `low` and below `below`.
pub(crate) fn next_number(text: &[u8], low: u64, below: u64) -> Result<(u64, &[u8]), Stop>
    requires { EndsToken text.now }
    ensures found { IfOk result (λ r. Follows text.now (a_number r.0) r.1.now) }
    ensures within { IfOk result (λ r. (low ≤ r.0) × (r.0 < below)) }
    ensures ended { IfOk result (λ r. EndsToken r.1.now) }
    ensures bad { IfErr result (λ stop. (after : Place) → StopsAs (Refused (number_then low below after) text.now) stop) }
{
    let Some(front) = front_of(text) else {
        return Err(Stop::Refused(BadKind::Argument));
    };
    match number_at(front, low, below) {
        Some((number, rest)) => Ok((number, rest)),
        None => Err(Stop::Refused(BadKind::Argument)),
    }
}

/// The path that stands first.
pub(crate) fn path_at(alloc: Global, front: &[u8]) -> Result<Option<(Path, &[u8])>, AllocError>
    ensures found { IfOk result (λ answer. IfSome answer (λ r. Stands front.now (a_path r.0) r.1.now)) }
    ensures none { IfOk result (λ answer. IfNone answer ((p : List (List ℕ)) (rest : List ℕ) → ¬ Stands front.now (a_path p) rest)) }
{
    match read_path(alloc, front, 0) {
        Ok((path, end)) => {
            let (_, rest) = front.split_at(end);
            Ok(Some((path, rest)))
        }
        Err(TextError::Bad { .. }) => Ok(None),
        Err(TextError::NoMemory) => Err(AllocError),
    }
}

/// Reads a path.
pub(crate) fn next_path(alloc: Global, text: &[u8]) -> Result<(Path, &[u8]), Stop>
    requires { EndsToken text.now }
    ensures found { IfOk result (λ r. Follows text.now (a_path r.0) r.1.now) }
    ensures ended { IfOk result (λ r. EndsToken r.1.now) }
    ensures bad { IfErr result (λ stop. (after : Place) → StopsAs (Refused (path_then after) text.now) stop) }
{
    let Some(front) = front_of(text) else {
        return Err(Stop::Refused(BadKind::Argument));
    };
    match path_at(alloc, front)? {
        Some((path, rest)) => Ok((path, rest)),
        None => Err(Stop::Refused(BadKind::Path)),
    }
}

/// The quoted text that stands first.
pub(crate) fn text_at(alloc: Global, front: &[u8]) -> Result<Option<(Bytes, &[u8])>, AllocError>
    ensures found { IfOk result (λ answer. IfSome answer (λ r. Stands front.now (a_text r.0) r.1.now)) }
    ensures short { IfOk result (λ answer. IfSome answer (λ r. length r.0 ≤ text_limit)) }
    ensures none { IfOk result (λ answer. IfNone answer ((s : List ℕ) (rest : List ℕ) → length s ≤ text_limit → ¬ Stands front.now (a_text s) rest)) }
{
    match read_quoted(alloc, front, 0) {
        Ok((bytes, end)) => {
            let (_, rest) = front.split_at(end);
            if !ends_token(rest) {
                return Ok(None);
            }
            match Bytes::new(bytes) {
                Some(bytes) => Ok(Some((bytes, rest))),
                None => Ok(None),
            }
        }
        Err(TextError::Bad { .. }) => Ok(None),
        Err(TextError::NoMemory) => Err(AllocError),
    }
}

/// Reads a quoted text.
pub(crate) fn next_text(alloc: Global, text: &[u8]) -> Result<(Bytes, &[u8]), Stop>
    requires { EndsToken text.now }
    ensures found { IfOk result (λ r. Follows text.now (a_text r.0) r.1.now) }
    ensures short { IfOk result (λ r. length r.0 ≤ text_limit) }
    ensures ended { IfOk result (λ r. EndsToken r.1.now) }
    ensures bad { IfErr result (λ stop. (after : Place) → StopsAs (Refused (text_then after) text.now) stop) }
{
    let Some(front) = front_of(text) else {
        return Err(Stop::Refused(BadKind::Argument));
    };
    match text_at(alloc, front)? {
        Some((bytes, rest)) => Ok((bytes, rest)),
        None => Err(Stop::Refused(BadKind::Argument)),
    }
}

/// Reads the end.
pub(crate) fn at_end(text: &[u8]) -> Result<(), Stop>
    requires { EndsToken text.now }
    ensures found { OnOk result (text.now ≡ []) }
    ensures bad { IfErr result (StopsAs (Refused end text.now)) }
{
    if text.is_empty() {
        Ok(())
    } else {
        Err(Stop::Refused(BadKind::Argument))
    }
}
