//! A whole journal, read.

ghost use Rattle.std.specs.Prelude.{◌≡◌, ◌≢◌, ◌++◌, ◌*◌, ◌≤◌, ℕ, List, codes, decimal, length, map, reverse, IfSome, IfNone, IfOk, IfErr};
ghost use Rattle.std.specs.List.{AllByRecursion};
ghost use Rattle.tl_model.specs.declared.event.Event.{Event};
ghost use Rattle.tl_model.specs.declared.header.Header.{Header};
ghost use Rattle.tl_spelling.specs.Events.{event_text};
ghost use Rattle.tl_spelling.specs.Journals.{end_text, event_lines, line_of};
ghost use Rattle.tl_spelling.specs.Shown.{IsEvent, shown};
ghost use Rattle.tl_reading.specs.Journals.{IsUnread, ReadsJournal, Spells, end_lines};
ghost use Rattle.tl_reading.specs.declared.journal.ReadError.TheVariants as read_error;

use crate::event::event_said;
use crate::header::header_said;
use crate::stop::Stop;
use crate::token::number_line;
use std::alloc::Global;
use thiserror::Error;
use tl_model::{Header, Journal, Version};
use tl_script::{after, around_feed};
use tl_types::{Bytes, NoMemory};

/// Why a text is not read as a journal.
#[derive(Debug, Drop, Error)]
pub enum ReadError {
    /// The first line with which the lines up to it begin no journal, counted from 1. It may be
    /// missing: then it is the one behind the last.
    #[error("unread {line}")]
    Unread { line: u64 },
    #[error("out of memory")]
    NoMemory,
}

impl From<NoMemory> for ReadError {
    ghost from_gives = { λ _ e. e ≡ read_error.NoMemory };

    fn from(_error: NoMemory) -> ReadError {
        ReadError::NoMemory
    }
}

// The journal of this header and of the events whose lines stand first, and what stands behind.
fn events_before(
    alloc: Global,
    header: Header,
    text: &[u8],
) -> Result<(Journal<Bytes>, &[u8]), NoMemory>
    ensures header { IfOk result (λ r. r.0.header ≡ header) }
    ensures each { IfOk result (λ r. AllByRecursion (IsEvent header) (reverse r.0.events)) }
    ensures shown { IfOk result (λ r. map shown (reverse r.0.events) ≡ reverse r.0.events) }
    ensures found { IfOk result (λ r. text.now ≡ event_lines (reverse r.0.events) ++ r.1.now) }
    ensures all { IfOk result (λ r. (event : Event (List ℕ)) (rest : List ℕ)
        → IsEvent header event → r.1.now ≢ line_of (event_text event) ++ rest) }
{
    let mut journal = Journal::new(alloc, header);
    let mut rest = text;
    'events: loop {
        let Some((line, later)) = around_feed(rest) else {
            return Ok((journal, rest));
        };
        journal.reserve(1)?;
        match event_said(alloc, line, &header) {
            Ok(event) => journal.append(event),
            Err(Stop::Unread) => return Ok((journal, rest)),
            Err(Stop::NoMemory) => return Err(NoMemory),
        }
        rest = later;
    }
}

// What stands behind the line that ends so many events, where the version has one.
fn end_before(version: Version, count: u64, text: &[u8]) -> Option<&[u8]>
    ensures found { IfSome result (λ rest. text.now ≡ end_text version count ++ rest.now) }
    ensures none { IfNone result ((rest : List ℕ) → text.now ≢ end_text version count ++ rest) }
{
    match version {
        Version::One => Some(text),
        Version::Two => end_line(count, text),
    }
}

// What stands behind the line that says so many events.
fn end_line(count: u64, text: &[u8]) -> Option<&[u8]>
    ensures found { IfSome result (λ rest. text.now
        ≡ line_of (codes "end " ++ decimal count) ++ rest.now) }
    ensures none { IfNone result ((rest : List ℕ)
        → text.now ≢ line_of (codes "end " ++ decimal count) ++ rest) }
{
    let said = after(text, b"end ")?;
    let (number, rest) = number_line(said)?;
    if number != count {
        return None;
    }
    Some(rest)
}

// How many lines end the events.
fn end_lines(version: Version) -> u64
    ensures { result ≡ end_lines version }
{
    match version {
        Version::One => 0,
        Version::Two => 1,
    }
}

// Reads a journal.
fn journal_said(alloc: Global, text: &[u8]) -> Result<Journal<Bytes>, ReadError>
    ensures read { IfOk result (λ journal.
        Spells text.now journal.header (reverse journal.events)) }
    ensures shown { IfOk result (λ journal.
        map shown (reverse journal.events) ≡ reverse journal.events) }
    ensures unread { IfErr result (IsUnread text.now) }
{
    let Some((first, rest)) = around_feed(text) else {
        return Err(ReadError::Unread { line: 1 });
    };
    let Some(header) = header_said(first) else {
        return Err(ReadError::Unread { line: 1 });
    };
    let (journal, rest) = events_before(alloc, header, rest)?;
    let count = journal.len();
    let Some(rest) = end_before(header.version, count, rest) else {
        return Err(ReadError::Unread { line: count + 2 });
    };
    if !rest.is_empty() {
        return Err(ReadError::Unread {
            line: count + 2 + end_lines(header.version),
        });
    }
    Ok(journal)
}

/// The journal whose text this is: the header's line, a line for each event, and in version 2 a
/// line that says how many events there are; a line feed ends each line. A line may have any
/// length. Of each event the journal has what its text shows: a put's length and digest are those
/// of its bytes, which stand for its ticket, and 0 and zeros stand for the size and the digest of
/// what was saved.
pub fn read(alloc: Global, text: &[u8]) -> Result<Journal<Bytes>, ReadError>
    ensures read { IfOk result (λ journal.
        Spells text.now journal.header (reverse journal.events)) }
    ensures only { (header : Header) (events : List (Event (List ℕ)))
        → Spells text.now header events → ReadsJournal result header events }
    ensures unread { IfErr result (IsUnread text.now) }
{
    journal_said(alloc, text)
}
