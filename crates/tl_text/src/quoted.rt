//! Texts between quote marks, with escapes.

ghost use Rattle.std.specs.Prelude.{◌≡◌, ◌≢◌, ℕ, ◌+◌, ◌*◌, ◌/◌, ◌%◌, ◌<◌, ◌≤◌, List, ◌∷◌, ◌++◌, length, take, drop, slice_index, IfOk, IfErr, OnOk, OnErr, IfNone, IfSome, MatchBool};
ghost use Rattle.std.specs.List.{All};
ghost use Rattle.tl_text.specs.Place.{CanBegin, IsFirstBad, HasOneReading};
ghost use Rattle.tl_text.specs.HexDigit.{hex_digit};
ghost use Rattle.tl_text.specs.Quoted.{item, quoted, IsItem, BeginsItem, HasHexItem, IsQuoted};
ghost use Rattle.tl_text.specs.Refusal.{IsRefusalOrNoMemory, Reads};

use crate::cut::cut_unless_ok;
use crate::error::{TextError, TextKind};
use crate::hex_digit::digit_at;
use std::alloc::{AllocError, Global};
use tl_types::NoMemory;

const DIGITS: [u8; 16] = *b"0123456789abcdef";

// Whether the item of the byte is `\x` and two digits.
fn has_hex_item(byte: u8) -> bool
    ensures { MatchBool result (HasHexItem byte) (¬ HasHexItem byte) }
{
    !matches!(byte, b'\t' | b'\n' | 0x20..=0x7e)
}

// The byte whose item is `\x` and the digits at the front of a text, or the place in the digits of
// the first byte that no such item allows.
fn hex_front(digits: &[u8]) -> Result<u8, usize>
    ensures found { IfOk result (λ byte. IsItem (0x5C ∷ 0x78 ∷ digits.now) byte (drop 2 digits.now)) }
    ensures length { IfOk result (λ byte. length (item byte) ≡ 4) }
    ensures begins { IfErr result (λ place. BeginsItem (take (place + 2) (0x5C ∷ 0x78 ∷ digits.now))) }
    ensures bad { IfErr result (λ place. IsFirstBad IsItem (0x5C ∷ 0x78 ∷ digits.now) (place + 2)) }
{
    let Some(high) = digit_at(digits, 0) else {
        return Err(0);
    };
    if 2 <= high && high <= 6 {
        return Err(0);
    }
    let Some(low) = digit_at(digits, 1) else {
        return Err(1);
    };
    let byte = high * 16 + low;
    if has_hex_item(byte) { Ok(byte) } else { Err(1) }
}

// The byte whose item is a backslash and the text, and the length of the item.
fn escape_front(escape: &[u8]) -> Result<(u8, usize), usize>
    ensures found { IfOk result (λ r. IsItem (0x5C ∷ escape.now) r.0 (drop r.1 (0x5C ∷ escape.now))) }
    ensures length { IfOk result (λ r. r.1 ≡ length (item r.0)) }
    ensures begins { IfErr result (λ place. BeginsItem (take place (0x5C ∷ escape.now))) }
    ensures bad { IfErr result (IsFirstBad IsItem (0x5C ∷ escape.now)) }
{
    match escape {
        [b'"', ..] => Ok((b'"', 2)),
        [b'\\', ..] => Ok((b'\\', 2)),
        [b'n', ..] => Ok((b'\n', 2)),
        [b't', ..] => Ok((b'\t', 2)),
        [b'x', digits @ ..] => match hex_front(digits) {
            Ok(byte) => Ok((byte, 4)),
            Err(place) => Err(place + 2),
        },
        _ => Err(1),
    }
}

// The byte whose item stands at the front of a text and the length of the item, or the place of the
// first byte that no item allows.
fn item_front(text: &[u8]) -> Result<(u8, usize), usize>
    ensures found { IfOk result (λ r. IsItem text.now r.0 (drop r.1 text.now)) }
    ensures length { IfOk result (λ r. r.1 ≡ length (item r.0)) }
    ensures begins { IfErr result (λ place. BeginsItem (take place text.now)) }
    ensures bad { IfErr result (IsFirstBad IsItem text.now) }
{
    match text {
        [] | [b'"', ..] => Err(0),
        [b'\\', escape @ ..] => escape_front(escape),
        [byte @ 0x20..=0x7e, ..] => Ok((*byte, 1)),
        [_, ..] => Err(0),
    }
}

// The bytes that stand quoted at the front of a text and the length of their spelling, or the place
// of the first byte that no quoted text allows.
fn quoted_front(alloc: Global, text: &[u8]) -> Result<Result<(Vec<u8>, usize), usize>, AllocError>
    ensures found { IfOk result (λ front. IfOk front (λ r. IsQuoted text.now r.0.items (drop r.1 text.now))) }
    ensures length { IfOk result (λ front. IfOk front (λ r. r.1 ≡ length (quoted r.0.items))) }
    ensures bad { IfOk result (λ front. IfErr front (IsFirstBad IsQuoted text.now)) }
{
    if text.is_empty() {
        return Ok(Err(0));
    }
    if text[0] != b'"' {
        return Ok(Err(0));
    }
    let mut bytes = Vec::new(alloc);
    let mut place = 1;
    while place < text.len() {
        if text[place] == b'"' {
            return Ok(Ok((bytes, place + 1)));
        }
        match item_front(&text[place..]) {
            Err(offset) => return Ok(Err(place + offset)),
            Ok((byte, len)) => {
                bytes.push(byte)?;
                place += len;
            }
        }
    }
    Ok(Err(place))
}

/// The bytes that stand between quote marks in `text` at `at`, and the place after them. The
/// refusal is `TextKind::BadQuote`, where no quoted text or one with another spelling stands there.
pub fn read_quoted(alloc: Global, text: &[u8], at: usize) -> Result<(Vec<u8>, usize), TextError>
    requires { at ≤ length text.now }
    ensures found { IfOk result (λ r. IsQuoted (drop at text.now) r.0.items (drop r.1 text.now)) }
    ensures place { IfOk result (λ r. r.1 ≡ at + length (quoted r.0.items)) }
    ensures only { (bytes rest : List ℕ) → IsQuoted (drop at text.now) bytes rest → Reads (λ v. v.items) result bytes (at + length (quoted bytes)) }
    ensures bad { IfErr result (IsRefusalOrNoMemory IsQuoted TextKind.BadQuote text.now at) }
{
    match quoted_front(alloc, &text[at..])? {
        Ok((bytes, len)) => Ok((bytes, at + len)),
        Err(offset) => Err(TextError::Bad {
            at: at + offset,
            kind: TextKind::BadQuote,
        }),
    }
}

// Appends the item of a byte.
fn append_item(out: &mut Vec<u8>, byte: u8) -> Result<(), AllocError>
    ensures ok { OnOk result (out.new.items ≡ out.old.items ++ item byte) }
    ensures err { OnErr result (out.new.items ≡ out.old.items) }
{
    match byte {
        b'"' => out.extend_from_slice(b"\\\"")?,
        b'\\' => out.extend_from_slice(b"\\\\")?,
        b'\n' => out.extend_from_slice(b"\\n")?,
        b'\t' => out.extend_from_slice(b"\\t")?,
        0x20..=0x7e => out.push(byte)?,
        _ => {
            let high = DIGITS[usize::from(byte / 16)];
            let low = DIGITS[usize::from(byte % 16)];
            out.extend_from_slice(&[b'\\', b'x', high, low])?;
        }
    }
    Ok(())
}

// Appends the bytes between quote marks, or some front of that.
fn append_quoted(out: &mut Vec<u8>, bytes: &[u8]) -> Result<(), AllocError>
    ensures ok { OnOk result (out.new.items ≡ out.old.items ++ quoted bytes.now) }
    ensures err { OnErr result (take (length out.old.items) out.new.items ≡ out.old.items) }
{
    out.push(b'"')?;
    for byte in bytes {
        append_item(out, *byte)?;
    }
    out.push(b'"')?;
    Ok(())
}

/// Appends the bytes between quote marks. An `Err` leaves `out` as it was.
pub fn print_quoted(out: &mut Vec<u8>, bytes: &[u8]) -> Result<(), NoMemory>
    ensures ok { OnOk result (out.new.items ≡ out.old.items ++ quoted bytes.now) }
    ensures err { OnErr result (out.new.items ≡ out.old.items) }
{
    let start = out.len();
    let printed = append_quoted(out, bytes);
    cut_unless_ok(out, start, printed)
}

/// A quoted text's spelling begins no other: whatever follows it, it is read again.
pub fn one_quoted()
    ensures { HasOneReading IsQuoted }
{}
