//! A call: its reply, and then its command.

ghost use Rattle.std.specs.Prelude.{◌≡◌, ◌≢◌, IfSome, IfNone, IfOk, IfErr, List, ℕ};
ghost use Rattle.tl_model.specs.declared.command.Command.{Command};
ghost use Rattle.tl_model.specs.declared.event.Act.{Act};
ghost use Rattle.tl_script.specs.declared.script.Op.{Op};
ghost use Rattle.tl_script.specs.declared.script.Op.TheVariants.{Put};
ghost use Rattle.tl_script.specs.Commands.{IsOp, Says};
ghost use Rattle.tl_spelling.specs.Commands.{op_of, command_text};
ghost use Rattle.tl_spelling.specs.Shown.{IsAct, shown_act, shown_command};
ghost use Rattle.tl_reading.specs.Acts.{about, deed_of};
ghost use Rattle.tl_reading.specs.declared.deed.Deed.TheVariants as deed;
ghost use Rattle.tl_reading.specs.Stops.{StopsFor};

use crate::reply::reply_before;
use crate::stop::Stop;
use std::alloc::Global;
use tl_model::{Act, Command, Header};
use tl_script::{Op, ScriptError, parse_op};
use tl_types::{Bytes, Path, sha256_digest};

// The put of these bytes at the path.
fn put_of(path: Path, bytes: Bytes) -> Command<Bytes>
    ensures command { op_of result ≡ Put path bytes }
    ensures shown { shown_command result ≡ result }
{
    Command::Put {
        path,
        len: bytes.len() as u64,
        digest: sha256_digest(bytes.as_slice()),
        ticket: bytes,
    }
}

// The command of a journal that a script's command is; `None` for what no journal has.
fn command_of(op: Op) -> Option<Command<Bytes>>
    ensures found { IfSome result (λ command. op_of command ≡ op) }
    ensures shown { IfSome result (λ command. shown_command command ≡ command) }
    ensures none { IfNone result ((command : Command (List ℕ)) → op_of command ≢ op) }
{
    match op {
        Op::Put { path, text } => Some(put_of(path, text)),
        Op::Job {
            core,
            prio,
            inputs,
            outputs,
        } => Some(Command::Job {
            core,
            prio,
            inputs,
            outputs,
        }),
        Op::Read { path, prio, form } => Some(Command::Read { path, prio, form }),
        Op::Delete { path } => Some(Command::Delete { path }),
        Op::Mkdir { path } => Some(Command::Mkdir { path }),
        Op::Rename { from, to } => Some(Command::Rename { from, to }),
        Op::Pin { path } => Some(Command::Pin { path }),
        Op::Unpin { path } => Some(Command::Unpin { path }),
        Op::List { path } => Some(Command::List { path }),
        Op::Stat { path } => Some(Command::Stat { path }),
        Op::Free { path } => Some(Command::Free { path }),
        Op::Lose { .. } => None,
        Op::Work { .. } => None,
    }
}

// The command that the text says, as a script of this header has it.
fn op_said(alloc: Global, text: &[u8], header: &Header) -> Result<Op, Stop>
    ensures said { IfOk result (Says header.now text.now) }
    ensures only { IfOk result (λ found. (op : Op) → Says header.now text.now op → found ≡ op) }
    ensures none { IfErr result (StopsFor ((op : Op) → ¬ Says header.now text.now op)) }
{
    match parse_op(alloc, text, header) {
        Ok(op) => Ok(op),
        Err(ScriptError::Bad { .. }) => Err(Stop::Unread),
        Err(ScriptError::NoMemory) => Err(Stop::NoMemory),
    }
}

/// The command of a journal of this header that the text says. A put's length and digest are those
/// of its bytes, which stand for its ticket.
pub fn command_said(alloc: Global, text: &[u8], header: &Header) -> Result<Command<Bytes>, Stop>
    ensures within { IfOk result (λ command. IsOp header.now (op_of command)) }
    ensures found { IfOk result (λ command. text.now ≡ command_text command) }
    ensures shown { IfOk result (λ command. shown_command command ≡ command) }
    ensures none { IfErr result (StopsFor ((command : Command (List ℕ))
        → IsOp header.now (op_of command) → text.now ≢ command_text command)) }
{
    let op = op_said(alloc, text, header)?;
    match command_of(op) {
        Some(command) => Ok(command),
        None => Err(Stop::Unread),
    }
}

/// The call that the text says behind its word and a space, in a journal of this header.
pub fn call_said(alloc: Global, text: &[u8], header: &Header) -> Result<Act<Bytes>, Stop>
    ensures word { IfOk result (λ act. deed_of act ≡ deed.Call) }
    ensures within { IfOk result (IsAct header.now) }
    ensures found { IfOk result (λ act. text.now ≡ about act) }
    ensures shown { IfOk result (λ act. shown_act act ≡ act) }
    ensures none { IfErr result (StopsFor ((act : Act (List ℕ)) → deed_of act ≡ deed.Call
        → IsAct header.now act → text.now ≢ about act)) }
{
    let (reply, rest) = reply_before(alloc, text)?;
    let command = command_said(alloc, rest, header)?;
    Ok(Act::Call(command, reply))
}
