//! Reading a script, and a command alone.

ghost use Rattle.std.specs.Prelude.{◌≡◌, ◌+◌, List, length, IfOk, IfErr};
ghost use Rattle.tl_model.specs.declared.header.Header.{Header};
ghost use Rattle.tl_script.specs.declared.script.Op.{Op};
ghost use Rattle.tl_script.specs.declared.script.Line.{Line};
ghost use Rattle.tl_script.specs.Lines.{lines_of};
ghost use Rattle.tl_script.specs.Commands.{Says, IsRefusedOp, ReadsOp};
ghost use Rattle.tl_script.specs.Reading.{error_at};
ghost use Rattle.tl_script.specs.Script.{SayAll, IsScript, IsBadBody, IsBadScript, Reads};

use crate::bad_kind::BadKind;
use crate::command::command;
use crate::line::{entry_of, first_line, header_of};
use crate::script::{Line, Op, Script, ScriptError};
use crate::stop::Stop;
use std::alloc::Global;
use tl_model::Header;

// The error of a line that a reader stopped at.
fn at_line(line: u64, stop: Stop) -> ScriptError
    ensures { result ≡ error_at line stop }
{
    match stop {
        Stop::Refused(kind) => ScriptError::Bad { line, kind },
        Stop::NoMemory => ScriptError::NoMemory,
    }
}

/// The command that the text says, for a script of this header. A refusal names line 1 and the kind of
/// the first wrong token; the limit on the length of a line does not hold.
pub fn parse_op(alloc: Global, text: &[u8], header: &Header) -> Result<Op, ScriptError>
    ensures read { IfOk result (Says header.now text.now) }
    ensures only { (op : Op) → Says header.now text.now op → ReadsOp result op }
    ensures refused { IfErr result (IsRefusedOp header.now text.now) }
{
    let _workers = header.workers;
    op_of(alloc, text, header)
}

// Reads a command.
fn op_of(alloc: Global, text: &[u8], header: &Header) -> Result<Op, ScriptError>
    ensures read { IfOk result (Says header.now text.now) }
    ensures refused { IfErr result (IsRefusedOp header.now text.now) }
{
    match command(alloc, text, header) {
        Ok(op) => Ok(op),
        Err(stop) => Err(at_line(1, stop)),
    }
}

/// The commands of the lines of a text, whose first line is line 2 of the script.
fn entries(alloc: Global, text: &[u8], header: &Header) -> Result<Vec<Line>, ScriptError>
    ensures read { IfOk result (λ entries. SayAll header.now 2 (lines_of text.now) entries.items) }
    ensures refused { IfErr result (IsBadBody header.now (lines_of text.now)) }
{
    let mut entries = Vec::new(alloc);
    let mut rest = text;
    let mut number = 2u64;
    while !rest.is_empty() {
        let (line, others) = first_line(rest);
        match entry_of(alloc, line, header, number) {
            Ok(None) => {}
            Ok(Some(entry)) => entries.push(entry)?,
            Err(stop) => return Err(at_line(number, stop)),
        }
        rest = others;
        number += 1;
    }
    Ok(entries)
}

// Reads a script.
fn script(alloc: Global, text: &[u8]) -> Result<Script, ScriptError>
    ensures read { IfOk result (λ script. IsScript (lines_of text.now) script.header script.lines.items) }
    ensures refused { IfErr result (IsBadScript (lines_of text.now)) }
{
    if text.is_empty() {
        return Err(ScriptError::Bad {
            line: 1,
            kind: BadKind::Header,
        });
    }
    let (first, others) = first_line(text);
    match header_of(first) {
        Ok(header) => {
            let lines = entries(alloc, others, &header)?;
            Ok(Script { header, lines })
        }
        Err(stop) => Err(at_line(1, stop)),
    }
}

/// The script that a text spells. A refusal names the first line that is refused, and the kind of its
/// first wrong token.
pub fn parse(alloc: Global, text: &[u8]) -> Result<Script, ScriptError>
    ensures read { IfOk result (λ script. IsScript (lines_of text.now) script.header script.lines.items) }
    ensures only { (header : Header) (entries : List Line) → IsScript (lines_of text.now) header entries → Reads result header entries }
    ensures refused { IfErr result (IsBadScript (lines_of text.now)) }
{
    script(alloc, text)
}
