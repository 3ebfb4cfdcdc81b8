//! A journal, printed.

ghost use Rattle.std.specs.Prelude.{◌≡◌, ◌∷◌, ◌++◌, [], codes, decimal, drop, length, reverse, take, OnOk, OnErr};
ghost use Rattle.tl_model.specs.Past.{event_with};
ghost use Rattle.tl_report.specs.Words.{spaced};
ghost use Rattle.tl_spelling.specs.Journals.{end_text, event_lines, header_text, line_of, next_source, puts_in, spelled_journal, told_by, version_word};

use crate::event::event_line;
use tl_model::{Act, Command, Event, Header, Journal, Version};
use tl_report::print::{then_number, word, word_number};
use tl_script::order_text;
use tl_types::{Bytes, NoMemory};

// The number of the version.
fn version_word(version: Version) -> &'static [u8]
    ensures { result.now ≡ version_word version }
{
    match version {
        Version::One => b"1",
        Version::Two => b"2",
    }
}

// Appends the number of the version and how many workers there are.
fn opening(out: &mut Vec<u8>, version: Version, workers: u8) -> Result<(), NoMemory>
    ensures ok { OnOk result (out.new.items ≡ out.old.items
        ++ (codes "journal " ++ (version_word version ++ codes " workers"
        ++ 0x20 ∷ decimal workers))) }
    ensures err { OnErr result (take (length out.old.items) out.new.items ≡ out.old.items) }
{
    word(out, b"journal ")?;
    word(out, version_word(version))?;
    word_number(out, b" workers", u64::from(workers))
}

// Appends the header's line.
fn header_line(out: &mut Vec<u8>, header: &Header) -> Result<(), NoMemory>
    ensures ok { OnOk result (out.new.items ≡ out.old.items ++ line_of (header_text header.now)) }
    ensures err { OnErr result (take (length out.old.items) out.new.items ≡ out.old.items) }
{
    opening(out, header.version, header.workers)?;
    word_number(out, b" capacity", header.capacity)?;
    word_number(out, b" hot", u64::from(header.hot))?;
    word(out, order_text(header.version, header.order))?;
    word(out, b"\n")
}

// Appends the line that ends the events, where the version has one.
fn end_line(out: &mut Vec<u8>, version: Version, count: u64) -> Result<(), NoMemory>
    ensures ok { OnOk result (out.new.items ≡ out.old.items ++ end_text version count) }
    ensures err { OnErr result (take (length out.old.items) out.new.items ≡ out.old.items) }
{
    match version {
        Version::One => Ok(()),
        Version::Two => {
            word_number(out, b"end", count)?;
            word(out, b"\n")
        }
    }
}

// How many puts the act is.
fn puts_in<T>(act: &Act<T>) -> usize
    ensures { result ≡ puts_in act.now }
{
    match act {
        Act::Call(Command::Put { .. }, _) => 1,
        _ => 0,
    }
}

// The bytes of the first source, and none where there is no source.
fn next_source(sources: &[Bytes]) -> &[u8]
    ensures { result.now ≡ next_source sources.now }
{
    match sources.split_first() {
        None => &[],
        Some((source, _)) => source.as_slice(),
    }
}

// The sources that the act leaves.
fn later_sources<'a, T>(act: &Act<T>, sources: &'a [Bytes]) -> &'a [Bytes]
    ensures { result.now ≡ drop (puts_in act.now) sources.now }
{
    &sources[puts_in(act).min(sources.len())..]
}

// Appends the lines of the events, each put by its own of the sources.
fn event_lines<T>(out: &mut Vec<u8>, events: &[Event<T>], sources: &[Bytes]) -> Result<(), NoMemory>
    ensures ok { OnOk result (out.new.items ≡ out.old.items
        ++ event_lines (told_by sources.now events.now)) }
    ensures err { OnErr result (take (length out.old.items) out.new.items ≡ out.old.items) }
{
    let mut rest = events;
    let mut left = sources;
    'events: while let Some((event, later)) = rest.split_first() {
        event_line(out, event, next_source(left))?;
        left = later_sources(&event.act, left);
        rest = later;
    }
    Ok(())
}

// Appends the journal, or some front of it.
fn append_journal<T>(
    out: &mut Vec<u8>,
    journal: &Journal<T>,
    sources: &[Bytes],
) -> Result<(), NoMemory>
    ensures ok { OnOk result (out.new.items
        ≡ out.old.items ++ spelled_journal journal.now.header
        (told_by sources.now (reverse journal.now.events))) }
    ensures err { OnErr result (take (length out.old.items) out.new.items ≡ out.old.items) }
{
    header_line(out, journal.header())?;
    event_lines(out, journal.events(), sources)?;
    end_line(out, journal.header().version, journal.len())
}

/// Appends the text of the journal: its header's line, a line for each event, and in version 2 a
/// line that says how many events there are. The sources are the bytes of its puts, refused ones too,
/// in the order of their calls; a put for which there is no source is written as one of no bytes. An
/// `Err` leaves `out` as it was.
pub fn journal_text<T>(
    out: &mut Vec<u8>,
    journal: &Journal<T>,
    sources: &[Bytes],
) -> Result<(), NoMemory>
    ensures ok { OnOk result (out.new.items
        ≡ out.old.items ++ spelled_journal journal.now.header
        (told_by sources.now (reverse journal.now.events))) }
    ensures err { OnErr result (out.new.items ≡ out.old.items) }
{
    let start = out.len();
    let printed = append_journal(out, journal, sources);
    if printed.is_err() {
        out.truncate(start);
    }
    printed
}
