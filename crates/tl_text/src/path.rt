//! Paths: `/`, or `/` and a component for each.

ghost use Rattle.std.specs.Prelude.{◌≡◌, ◌≢◌, ℕ, ◌+◌, ◌<◌, ◌≤◌, List, ◌∷◌, [], ◌++◌, length, take, drop, slice_index, IsTrue, IfOk, IfErr, OnOk, OnErr, MatchBool};
ghost use Rattle.std.specs.List.{between, flat_map};
ghost use Rattle.tl_types.specs.Path.{spelled, slash_before, is_component_byte, IsComponent, IsPath};
ghost use Rattle.tl_text.specs.PathText.{EndsToken, IsPathText, MayFollow, SlashMayFollow, ByteMayFollow};
ghost use Rattle.tl_text.specs.Place.{IsFirstBad, HasOneReading};
ghost use Rattle.tl_text.specs.Refusal.{IsRefusalOrNoMemory, Reads};

use crate::cut::cut_unless_ok;
use crate::error::{TextError, TextKind};
use memchr::memchr;
use std::alloc::{AllocError, Global};
use tl_types::{COMPONENT_LIMIT, NoMemory, PARTS_LIMIT, Path, SPELLING_LIMIT, is_component};

// How many bytes stand before the first space.
fn token_len(text: &[u8]) -> usize
    ensures within { result ≤ length text.now }
    ensures ended { EndsToken (drop result text.now) }
    ensures inside { (k : ℕ) → k < result → slice_index text.now k ≢ 0x20 }
{
    memchr(b' ', text).unwrap_or(text.len())
}

// Whether the byte may stand in a component.
fn is_component_byte(byte: u8) -> bool
    ensures { result ≡ is_component_byte byte }
{
    0x21 <= byte && byte <= 0x7e && byte != b'/' && byte != b'"'
}

// Whether `/` may stand at the place, after `count` whole components and this one.
fn slash_may_follow(count: usize, component: &[u8], place: usize) -> bool
    ensures { MatchBool result (SlashMayFollow count component.now place) (¬ SlashMayFollow count component.now place) }
{
    if count >= PARTS_LIMIT - 1 {
        return false;
    }
    if place >= SPELLING_LIMIT - 1 {
        return false;
    }
    is_component(component)
}

// Whether the byte, the last of these of a component, may stand at the place.
fn byte_may_follow(bytes: &[u8], place: usize, byte: u8) -> bool
    ensures { MatchBool result (ByteMayFollow bytes.now place byte) (¬ ByteMayFollow bytes.now place byte) }
{
    if !is_component_byte(byte) {
        return false;
    }
    if bytes.len() > COMPONENT_LIMIT {
        return false;
    }
    if place < SPELLING_LIMIT - 1 {
        return true;
    }
    if place >= SPELLING_LIMIT {
        return false;
    }
    is_component(bytes)
}

// Whether the byte at `place` may go on in a path of which `count` whole components have been read,
// and the next from `start` on.
fn may_follow(count: usize, text: &[u8], start: usize, place: usize) -> bool
    requires order { start ≤ place }
    requires within { place < length text.now }
    ensures { MatchBool result (MayFollow count (between start place text.now) place (slice_index text.now place))
        (¬ MayFollow count (between start place text.now) place (slice_index text.now place)) }
{
    if text[place] == b'/' {
        slash_may_follow(count, &text[start..place], place)
    } else {
        byte_may_follow(&text[start..=place], place, text[place])
    }
}

// The path at the front of a text and how many bytes it takes, or the place of the first byte that
// no path allows.
fn path_front(alloc: Global, text: &[u8]) -> Result<Result<(Path, usize), usize>, AllocError>
    ensures found { IfOk result (λ front. IfOk front (λ r. IsPathText text.now r.0 (drop r.1 text.now))) }
    ensures length { IfOk result (λ front. IfOk front (λ r. r.1 ≡ length (spelled r.0))) }
    ensures bad { IfOk result (λ front. IfErr front (IsFirstBad IsPathText text.now)) }
{
    if text.is_empty() {
        return Ok(Err(0));
    }
    if text[0] != b'/' {
        return Ok(Err(0));
    }
    let end = token_len(text);
    let mut parts = Vec::new(alloc);
    if end == 1 {
        return Ok(Ok((Path::new(parts).unwrap(), 1)));
    }
    let mut start = 1;
    for place in 1..end {
        if !may_follow(parts.len(), text, start, place) {
            return Ok(Err(place));
        }
        if text[place] == b'/' {
            parts.push(Vec::from_slice(alloc, &text[start..place])?)?;
            start = place + 1;
        }
    }
    let last = &text[start..end];
    if !is_component(last) {
        return Ok(Err(end));
    }
    parts.push(Vec::from_slice(alloc, last)?)?;
    let path = Path::new(parts).unwrap();
    Ok(Ok((path, end)))
}

/// The path that stands in `text` at `at`, all bytes up to the next space or the end, and the place
/// after it. The refusal is `TextKind::BadPath`.
pub fn read_path(alloc: Global, text: &[u8], at: usize) -> Result<(Path, usize), TextError>
    requires { at ≤ length text.now }
    ensures found { IfOk result (λ r. IsPathText (drop at text.now) r.0 (drop r.1 text.now)) }
    ensures place { IfOk result (λ r. r.1 ≡ at + length (spelled r.0)) }
    ensures only { (parts : List (List ℕ)) (rest : List ℕ) → IsPathText (drop at text.now) parts rest → Reads (λ path. path) result parts (at + length (spelled parts)) }
    ensures bad { IfErr result (IsRefusalOrNoMemory IsPathText TextKind.BadPath text.now at) }
{
    match path_front(alloc, &text[at..])? {
        Ok((path, len)) => Ok((path, at + len)),
        Err(offset) => Err(TextError::Bad {
            at: at + offset,
            kind: TextKind::BadPath,
        }),
    }
}

// Appends `/` and each component, or some front of that.
fn append_parts(out: &mut Vec<u8>, path: &Path) -> Result<(), AllocError>
    ensures ok { OnOk result (out.new.items ≡ out.old.items ++ flat_map slash_before path.now) }
    ensures err { OnErr result (take (length out.old.items) out.new.items ≡ out.old.items) }
{
    for i in 0..path.len() {
        out.push(b'/')?;
        out.extend_from_slice(path.part(i))?;
    }
    Ok(())
}

// Appends the path, or some front of its spelling.
fn append_path(out: &mut Vec<u8>, path: &Path) -> Result<(), AllocError>
    ensures ok { OnOk result (out.new.items ≡ out.old.items ++ spelled path.now) }
    ensures err { OnErr result (take (length out.old.items) out.new.items ≡ out.old.items) }
{
    if path.is_empty() {
        out.push(b'/')?;
        return Ok(());
    }
    append_parts(out, path)
}

/// Appends the path. An `Err` leaves `out` as it was.
pub fn print_path(out: &mut Vec<u8>, path: &Path) -> Result<(), NoMemory>
    ensures ok { OnOk result (out.new.items ≡ out.old.items ++ spelled path.now) }
    ensures err { OnErr result (out.new.items ≡ out.old.items) }
{
    let start = out.len();
    let printed = append_path(out, path);
    cut_unless_ok(out, start, printed)
}

/// A path's spelling, where a space or nothing follows it, begins no other: it is read again.
pub fn one_path()
    ensures { HasOneReading IsPathText }
{}
