//! The lines of a script.

ghost use Rattle.std.specs.Prelude.{◌≡◌, ◌∷◌, ◌++◌, ◌<◌, ◌≤◌, ℕ, List, length, codes, decimal, true, IfOk, IfErr, IfSome, IfNone};
ghost use Rattle.std.specs.List.{All};
ghost use Rattle.tl_model.specs.declared.header.Header.{Header};
ghost use Rattle.tl_script.specs.Lines.{lines_of, IsOther};
ghost use Rattle.tl_script.specs.Script.{IsHeader, header_text, HeaderSays, RefusedHeader, is_skipped, IsSkipped, SaysEntry, RefusedLine};
ghost use Rattle.tl_script.specs.Reading.{StopsAs};

use crate::bad_kind::BadKind;
use crate::command::command;
use crate::header::header_said;
use crate::script::Line;
use crate::stop::Stop;
use crate::token::{client_at, front_of};
use memchr::memchr;
use std::alloc::Global;
use tl_model::Header;

const LINE_FEED: u8 = b'\n';

/// The greatest length of a line, in bytes.
const LINE_LIMIT: usize = 65_536;

/// The text before the first line feed and the text behind it; `None` where there is no line feed.
pub fn around_feed(text: &[u8]) -> Option<(&[u8], &[u8])>
    ensures found { IfSome result (λ parts. (text.now ≡ parts.0.now ++ 10 ∷ parts.1.now) × All (IsOther 10) parts.0.now) }
    ensures none { IfNone result (All (IsOther 10) text.now) }
{
    let place = memchr(LINE_FEED, text)?;
    Some((&text[..place], &text[place + 1..]))
}

/// The first line of a text that isn't empty, and the text behind its line feed.
pub(crate) fn first_line(text: &[u8]) -> (&[u8], &[u8])
    requires { 0 < length text.now }
    ensures lines { lines_of text.now ≡ result.0.now ∷ lines_of result.1.now }
    ensures shorter { length result.1.now < length text.now }
{
    match around_feed(text) {
        Some((line, rest)) => (line, rest),
        None => (text, &[]),
    }
}

// Whether the line is empty or a comment.
fn is_skipped(line: &[u8]) -> bool
    ensures { result ≡ is_skipped line.now }
{
    match line.split_first() {
        None => true,
        Some((first, _)) => *first == b'#',
    }
}

/// What line number `number` of a script says; `None` where it is skipped.
pub(crate) fn entry_of(
    alloc: Global,
    line: &[u8],
    header: &Header,
    number: u64,
) -> Result<Option<Line>, Stop>
    ensures skipped { IfOk result (λ answer. IfNone answer (IsSkipped line.now)) }
    ensures said { IfOk result (λ answer. IfSome answer (SaysEntry header.now number line.now)) }
    ensures bad { IfErr result (StopsAs (RefusedLine header.now line.now)) }
{
    if line.len() > LINE_LIMIT {
        return Err(Stop::Refused(BadKind::LineTooLong));
    }
    if is_skipped(line) {
        return Ok(None);
    }
    let Some((client, rest)) = client_at(line) else {
        return Err(Stop::Refused(BadKind::Client));
    };
    let Some(front) = front_of(rest) else {
        return Err(Stop::Refused(BadKind::Argument));
    };
    let op = command(alloc, front, header)?;
    Ok(Some(Line { number, client, op }))
}

/// The header that the first line says.
pub(crate) fn header_of(line: &[u8]) -> Result<Header, Stop>
    ensures found { IfOk result (HeaderSays line.now) }
    ensures bad { IfErr result (StopsAs (RefusedHeader line.now)) }
{
    if line.len() > LINE_LIMIT {
        return Err(Stop::Refused(BadKind::LineTooLong));
    }
    match header_said(line) {
        Some(header) => Ok(header),
        None => Err(Stop::Refused(BadKind::Header)),
    }
}
