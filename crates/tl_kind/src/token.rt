//! The tokens of a program, read at a cursor. Where one stops, the cursor stands at the first byte
//! that can't stand there.

ghost use Rattle.std.specs.Prelude.{◌≡◌, ◌≢◌, ◌<◌, ◌≤◌, ℕ, suc, ◌∷◌, length, drop, true, Some, OnOk, IfOk, IfErr};
ghost use Rattle.tl_text.specs.Number.{IsNumber};
ghost use Rattle.tl_text.specs.Signed.{IsSigned};
ghost use Rattle.tl_text.specs.Quoted.{IsQuoted};
ghost use Rattle.tl_kind.specs.Refusals.{expr, name, number, quoted_text, part, wrong_first, begins_with_digit, begins_signed, begins_quoted, Refused};
ghost use Rattle.tl_kind.specs.Reading.{StopsAs, Misses, IsNamed, IsWord, AreLetters, refused_first, InQuoted};

use crate::begin::{is_digit, is_letter};
use crate::cursor::Cursor;
use crate::lang_error::LangErrorKind;
use crate::stop::Stop;
use crate::word::{Word, word_of};
use std::alloc::Global;
use tl_lang::Name;
use tl_text::{TextError, read_number, read_quoted, read_signed};
use tl_types::Bytes;

/// The greatest length of a name.
const NAME_LIMIT: usize = 16;

// The refusal of a text that begins with another byte.
pub(crate) fn refused_first(text: &[u8]) -> Stop
    ensures { result ≡ refused_first text.now }
{
    match text.split_first() {
        None => Stop::Refused(LangErrorKind::End),
        Some(_) => Stop::Refused(LangErrorKind::Unexpected),
    }
}

// Goes past the byte.
pub(crate) fn expect(cursor: &mut Cursor<'_>, byte: u8) -> Result<(), Stop>
    ensures found { OnOk result (cursor.old.rest.now ≡ byte ∷ cursor.new.rest.now) }
    ensures bad { IfErr result (StopsAs (Misses byte cursor.old.rest.now) cursor.new.rest.now) }
{
    match cursor.rest.split_first() {
        None => Err(Stop::Refused(LangErrorKind::End)),
        Some((first, rest)) => {
            if *first == byte {
                cursor.rest = rest;
                Ok(())
            } else {
                Err(Stop::Refused(LangErrorKind::Unexpected))
            }
        }
    }
}

// How many letters stand at the front of the text, of as many as the limit.
pub(crate) fn letters_len(text: &[u8], limit: usize) -> usize
    ensures { AreLetters text.now limit result }
{
    for (place, byte) in text.iter().enumerate() {
        if place == limit || !is_letter(*byte) {
            return place;
        }
    }
    text.len()
}

// Reads a name, or what of it a name may have.
pub(crate) fn name(alloc: Global, cursor: &mut Cursor<'_>) -> Result<Name, Stop>
    ensures found { IfOk result (λ x. IsNamed cursor.old.rest.now x cursor.new.rest.now) }
    ensures bad { IfErr result (StopsAs (λ rest kind. (rest ≡ cursor.old.rest.now) × (wrong_first name 0 cursor.old.rest.now ≡ Some kind)) cursor.new.rest.now) }
{
    let len = letters_len(cursor.rest, NAME_LIMIT);
    if len == 0 {
        return Err(refused_first(cursor.rest));
    }
    let (letters, rest) = cursor.rest.split_at(len);
    let letters = Vec::from_slice(alloc, letters)?;
    cursor.rest = rest;
    Ok(Name::from_vec(letters))
}

// Reads the word of a form.
pub(crate) fn word(cursor: &mut Cursor<'_>) -> Result<Word, Stop>
    ensures found { IfOk result (λ w. IsWord cursor.old.rest.now w cursor.new.rest.now) }
    ensures bad { IfErr result (λ stop. (room : ℕ) → StopsAs (Refused (part expr (suc room)) (0x28 ∷ cursor.old.rest.now)) cursor.new.rest.now stop) }
{
    let len = letters_len(cursor.rest, cursor.rest.len());
    if len == 0 {
        return Err(refused_first(cursor.rest));
    }
    let (letters, rest) = cursor.rest.split_at(len);
    match word_of(letters) {
        None => Err(Stop::Refused(LangErrorKind::UnknownForm)),
        Some(word) => {
            cursor.rest = rest;
            Ok(word)
        }
    }
}

// Goes to the place in what is left, where a token that has begun is refused.
fn refuse(cursor: &mut Cursor<'_>, at: usize, kind: LangErrorKind) -> Stop
    requires { at ≤ length cursor.old.rest.now }
    ensures stop { result ≡ Stop.Refused kind }
    ensures rest { cursor.new.rest.now ≡ drop at cursor.old.rest.now }
{
    let (_, rest) = cursor.rest.split_at(at);
    cursor.rest = rest;
    Stop::Refused(kind)
}

// Reads a number.
pub(crate) fn number(cursor: &mut Cursor<'_>) -> Result<u64, Stop>
    ensures found { IfOk result (λ n. IsNumber 18446744073709551615 cursor.old.rest.now n cursor.new.rest.now) }
    ensures bad { IfErr result (λ stop. (room : ℕ) → StopsAs (Refused (part number room) cursor.old.rest.now) cursor.new.rest.now stop) }
{
    if !begins_with_digit(cursor.rest) {
        return Err(refused_first(cursor.rest));
    }
    match read_number(cursor.rest, 0) {
        Ok((number, after)) => {
            let (_, rest) = cursor.rest.split_at(after);
            cursor.rest = rest;
            Ok(number)
        }
        Err(TextError::Bad { at, .. }) => Err(refuse(cursor, at, LangErrorKind::BadNumber)),
        Err(TextError::NoMemory) => Err(Stop::NoMemory),
    }
}

// Whether the text begins with a decimal digit.
fn begins_with_digit(text: &[u8]) -> bool
    ensures { result ≡ begins_with_digit text.now }
{
    match text.split_first() {
        None => false,
        Some((first, _)) => is_digit(*first),
    }
}

// Reads a signed number, which has begun.
pub(crate) fn signed(cursor: &mut Cursor<'_>) -> Result<i64, Stop>
    requires { begins_signed cursor.old.rest.now ≡ true }
    ensures found { IfOk result (λ z. IsSigned cursor.old.rest.now z cursor.new.rest.now) }
    ensures bad { IfErr result (λ stop. (room : ℕ) → StopsAs (Refused (part expr room) cursor.old.rest.now) cursor.new.rest.now stop) }
{
    match read_signed(cursor.rest, 0) {
        Ok((number, after)) => {
            let (_, rest) = cursor.rest.split_at(after);
            cursor.rest = rest;
            Ok(number)
        }
        Err(TextError::Bad { at, .. }) => Err(refuse(cursor, at, LangErrorKind::BadNumber)),
        Err(TextError::NoMemory) => Err(Stop::NoMemory),
    }
}

// Reads a quoted text, which has begun.
pub(crate) fn begun_quote(alloc: Global, cursor: &mut Cursor<'_>) -> Result<Bytes, Stop>
    requires { begins_quoted cursor.old.rest.now ≡ true }
    ensures found { IfOk result (λ s. IsQuoted cursor.old.rest.now s cursor.new.rest.now) }
    ensures bad { IfErr result (StopsAs (InQuoted cursor.old.rest.now) cursor.new.rest.now) }
{
    match read_quoted(alloc, cursor.rest, 0) {
        Ok((bytes, after)) => {
            let (_, rest) = cursor.rest.split_at(after);
            cursor.rest = rest;
            match Bytes::new(bytes) {
                None => unreachable!(),
                Some(bytes) => Ok(bytes),
            }
        }
        Err(TextError::Bad { at, .. }) => Err(refuse(cursor, at, LangErrorKind::BadQuote)),
        Err(TextError::NoMemory) => Err(Stop::NoMemory),
    }
}

// Reads a quoted text.
pub(crate) fn quoted(alloc: Global, cursor: &mut Cursor<'_>) -> Result<Bytes, Stop>
    ensures found { IfOk result (λ s. IsQuoted cursor.old.rest.now s cursor.new.rest.now) }
    ensures bad { IfErr result (λ stop. (room : ℕ) → StopsAs (Refused (part quoted_text room) cursor.old.rest.now) cursor.new.rest.now stop) }
{
    if !begins_quoted(cursor.rest) {
        return Err(refused_first(cursor.rest));
    }
    begun_quote(alloc, cursor)
}

// Whether the text begins with a quote mark.
fn begins_quoted(text: &[u8]) -> bool
    ensures { result ≡ begins_quoted text.now }
{
    match text.split_first() {
        None => false,
        Some((first, _)) => *first == b'"',
    }
}
