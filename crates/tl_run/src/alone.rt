//! Running a script on one thread.

ghost use Rattle.std.specs.Prelude.{◌≡◌, ◌++◌, ◌≢◌, List, ℕ, Some, None, false, vec_len, IfOk, IfSome, MatchResult, OnOk};
ghost use Rattle.tl_model.specs.declared.header.Header.{Header};
ghost use Rattle.tl_script.specs.declared.script.Line.{Line};
ghost use Rattle.tl_script.specs.Lines.{lines_of};
ghost use Rattle.tl_script.specs.Script.{IsScript};
ghost use Rattle.tl_run.specs.Alone.{Supply, Held, Plays, Ends, EndsWith, StopsFor, Finishes, refusal_text, kept_with};

use crate::play::{Finished, play};
use crate::reading::{ReadError, read_all};
use crate::status::Status;
use crate::writing::write_all;
use std::alloc::Global;
use tl_core::Cluster;
use tl_io::{Depot, MemTicket, Sink, SinkError, Source, Ticket};
use tl_script::laws::a_script_is_not_refused;
use tl_script::{BadKind, ScriptError, parse};
use tl_text::print_number;
use tl_types::NoMemory;

/// Why there is no transcript.
#[derive(Clone, Copy, Debug, PartialEq, Eq)]
pub enum Stop {
    /// The first line that is refused.
    BadScript { line: u64, kind: BadKind },
    /// The source met a fault.
    ReadFault,
    /// The input is longer than it may be.
    TooLong,
    /// Memory ran out.
    NoMemory,
}

/// How a run of a script ended.
#[derive(Drop)]
pub struct Ended<T: Ticket> {
    /// The exit status.
    pub status: u8,
    /// The cluster on which the lines were done: with status 0, and with 5 exactly where the input
    /// spells a script.
    pub kept: Option<Cluster<T>>,
}

// How a run ended, and the cluster on which lines were done.
#[derive(Drop)]
struct Ending {
    status: Status,
    kept: Option<Cluster<MemTicket>>,
}

/// Reads a script, does its lines in order and writes their transcript; or writes why it did not.
/// Nothing of `depots` is used.
pub fn alone_call<I: Source, O: Sink, D: Depot>(
    alloc: Global,
    journal: bool,
    input: &mut I,
    output: &mut O,
    depots: &mut Vec<D>,
) -> Ended<MemTicket>
    requires no_journal { journal ≡ false }
    requires handles { vec_len depots.old ≡ 16 }

    ensures ends { EndsWith
        (record { left = I.left input.old; given = I.given input.old; faults = I.faults input.old })
        (record { left = I.left input.new; given = I.given input.new; faults = I.faults input.new })
        result.kept
        (record { bytes = O.held output.old; faults = O.faults output.old })
        (record { bytes = O.held output.new; faults = O.faults output.new })
        result.status }

    // A script is never refused.
    ensures accepted { IfSome (I.left input.old) (λ bytes.
        (header : Header) (lines : List Line) → IsScript (lines_of bytes) header lines → result.status ≢ 3) }
    ensures depots { depots.new ≡ depots.old }
{
    a_script_is_not_refused();
    let Ending { status, kept } = run(alloc, input, output);
    Ended {
        status: status.code(),
        kept,
    }
}

// Does a run, and answers how it ended.
fn run<I: Source, O: Sink>(alloc: Global, input: &mut I, output: &mut O) -> Ending
    ensures { Ends
        (record { left = I.left input.old; given = I.given input.old; faults = I.faults input.old })
        (record { left = I.left input.new; given = I.given input.new; faults = I.faults input.new })
        result.kept
        (record { bytes = O.held output.old; faults = O.faults output.old })
        (record { bytes = O.held output.new; faults = O.faults output.new })
        result.status }
{
    match play_script(alloc, input) {
        Ok(Finished { cluster, text }) => {
            let status = finish(output, Status::Done, &text);
            Ending {
                status,
                kept: kept_with(status, cluster),
            }
        }
        Err(Stop::BadScript { line, kind }) => {
            let Ok(text) = refusal(alloc, line, kind) else {
                return without(Status::NoMemory);
            };
            without(finish(output, Status::BadScript, &text))
        }
        Err(Stop::ReadFault) => without(finish(output, Status::ReadFault, b"read fault\n")),
        Err(Stop::TooLong) => without(finish(output, Status::TooLong, b"input too long\n")),
        Err(Stop::NoMemory) => without(Status::NoMemory),
    }
}

// A run that keeps nothing.
fn without(status: Status) -> Ending
    ensures status { result.status ≡ status }
    ensures kept { result.kept ≡ None }
{
    Ending { status, kept: None }
}

// The cluster, unless memory ran out.
fn kept_with(status: Status, cluster: Cluster<MemTicket>) -> Option<Cluster<MemTicket>>
    ensures { result ≡ kept_with status (Some cluster) }
{
    match status {
        Status::NoMemory => None,
        _ => Some(cluster),
    }
}

// Does the lines of the script that the input spells.
fn play_script<I: Source>(alloc: Global, input: &mut I) -> Result<Finished, Stop>
    ensures { MatchResult result
        (λ finished. Plays
        (record { left = I.left input.old; given = I.given input.old; faults = I.faults input.old })
        (record { left = I.left input.new; given = I.given input.new; faults = I.faults input.new })
        finished.cluster finished.text.items)
        (StopsFor
        (record { left = I.left input.old; given = I.given input.old; faults = I.faults input.old })
        (record { left = I.left input.new; given = I.given input.new; faults = I.faults input.new })) }
{
    let bytes = match read_all(alloc, input) {
        Ok(bytes) => bytes,
        Err(ReadError::Failed) => return Err(Stop::ReadFault),
        Err(ReadError::TooLong) => return Err(Stop::TooLong),
        Err(ReadError::NoMemory) => return Err(Stop::NoMemory),
    };
    let script = match parse(alloc, &bytes) {
        Ok(script) => script,
        Err(ScriptError::Bad { line, kind }) => return Err(Stop::BadScript { line, kind }),
        Err(ScriptError::NoMemory) => return Err(Stop::NoMemory),
    };
    let Ok(finished) = play(alloc, script.header, script.lines) else {
        return Err(Stop::NoMemory);
    };
    Ok(finished)
}

// The text that names a refused line.
fn refusal(alloc: Global, line: u64, kind: BadKind) -> Result<Vec<u8>, NoMemory>
    ensures { IfOk result (λ text. text.items ≡ refusal_text line kind) }
{
    let mut text = Vec::from_slice(alloc, b"script line ")?;
    print_number(&mut text, line)?;
    text.extend_from_slice(b" kind ")?;
    print_number(&mut text, u64::from(kind.number()))?;
    text.extend_from_slice(b"\n")?;
    Ok(text)
}

/// Writes the text of a status, and answers the status, or why not all was written.
pub(crate) fn finish<O: Sink>(output: &mut O, status: Status, text: &[u8]) -> Status
    ensures { Finishes
        (record { bytes = O.held output.old; faults = O.faults output.old })
        (record { bytes = O.held output.new; faults = O.faults output.new })
        status text.now result }
{
    match write_all(output, text) {
        Ok(()) => status,
        Err(SinkError::Failed) => Status::WriteFault,
        Err(SinkError::NoMemory) => Status::NoMemory,
    }
}
