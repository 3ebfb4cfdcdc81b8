//! An event, appended to what is printed. An error leaves what stood there, and maybe some front of
//! the event behind it.

ghost use Rattle.std.specs.Prelude.{◌≡◌, ◌∷◌, ◌++◌, [], codes, decimal, length, take, OnOk, OnErr};
ghost use Rattle.hex.specs.Hex.{encode_lower};
ghost use Rattle.tl_text.specs.File.{file_text};
ghost use Rattle.tl_model.specs.Past.{act_with, event_with};
ghost use Rattle.tl_model.specs.declared.event.Act.TheVariants.{Call};
ghost use Rattle.tl_report.specs.Words.{spaced, reply_words};
ghost use Rattle.tl_spelling.specs.Commands.{command_text};
ghost use Rattle.tl_spelling.specs.Events.{act_words, event_text};
ghost use Rattle.tl_spelling.specs.Journals.{line_of};
ghost use Rattle.tl_model.specs.Past.{command_with};

use crate::command::command;
use tl_model::{Act, Command, Event, Reply};
use tl_report::print::{reply, then_number, word, word_file, word_number};
use tl_text::{print_digest, print_file, print_number};
use tl_types::{Digest, FileId, NoMemory, RecordId, WorkerId};

// Appends a word, the worker and the record.
fn word_job(
    out: &mut Vec<u8>,
    bytes: &[u8],
    worker: WorkerId,
    made: RecordId,
) -> Result<(), NoMemory>
    ensures ok { OnOk result (out.new.items ≡ out.old.items
        ++ (bytes.now ++ 0x20 ∷ (decimal worker.0 ++ 0x20 ∷ decimal made.0))) }
    ensures err { OnErr result (take (length out.old.items) out.new.items ≡ out.old.items) }
{
    word_number(out, bytes, u64::from(worker.0))?;
    then_number(out, u64::from(made.0))
}

// Appends a word, the worker and the file.
fn word_block(
    out: &mut Vec<u8>,
    bytes: &[u8],
    worker: WorkerId,
    file: FileId,
) -> Result<(), NoMemory>
    ensures ok { OnOk result (out.new.items ≡ out.old.items
        ++ (bytes.now ++ 0x20 ∷ (decimal worker.0 ++ 0x20 ∷ file_text file))) }
    ensures err { OnErr result (take (length out.old.items) out.new.items ≡ out.old.items) }
{
    word_number(out, bytes, u64::from(worker.0))?;
    word(out, b" ")?;
    print_file(out, file)
}

// Appends the file that was served, and its digest.
fn served(out: &mut Vec<u8>, file: FileId, digest: &Digest) -> Result<(), NoMemory>
    ensures ok { OnOk result (out.new.items ≡ out.old.items
        ++ (codes "served" ++ 0x20 ∷ (file_text file ++ 0x20 ∷ encode_lower digest.now.0))) }
    ensures err { OnErr result (take (length out.old.items) out.new.items ≡ out.old.items) }
{
    word_file(out, b"served", file)?;
    word(out, b" ")?;
    print_digest(out, digest)
}

// Appends a call; if it is a put, by these bytes.
fn call<T>(
    out: &mut Vec<u8>,
    said: &Command<T>,
    answer: &Reply,
    bytes: &[u8],
) -> Result<(), NoMemory>
    ensures ok { OnOk result (out.new.items ≡ out.old.items
        ++ (codes "call" ++ 0x20 ∷ (reply_words answer.now
        ++ 0x20 ∷ command_text (command_with (λ _. bytes.now) said.now)))) }
    ensures err { OnErr result (take (length out.old.items) out.new.items ≡ out.old.items) }
{
    word(out, b"call ")?;
    reply(out, answer)?;
    word(out, b" ")?;
    command(out, said, bytes)
}

// Appends what is done; if it is a put, by these bytes.
fn act<T>(out: &mut Vec<u8>, done: &Act<T>, bytes: &[u8]) -> Result<(), NoMemory>
    ensures ok { OnOk result (out.new.items ≡ out.old.items
        ++ spaced (act_words (act_with (λ _. bytes.now) done.now))) }
    ensures err { OnErr result (take (length out.old.items) out.new.items ≡ out.old.items) }
{
    match done {
        Act::Call(said, answer) => call(out, said, answer, bytes),
        Act::Served(file, digest) => served(out, *file, digest),
        Act::Shut(file) => word_file(out, b"shut", *file),
        Act::Claim(worker, made) => word_job(out, b"claim", *worker, *made),
        Act::Done(worker, made) => word_job(out, b"done", *worker, *made),
        Act::Back(made) => word_number(out, b"back", u64::from(made.0)),
        Act::Lose(worker) => word_number(out, b"lose", u64::from(worker.0)),
        Act::Free(file) => word_file(out, b"free", *file),
        Act::Drop(worker, file) => word_block(out, b"drop", *worker, *file),
        Act::Load(worker, file) => word_block(out, b"load", *worker, *file),
        Act::Save(file) => word_file(out, b"save", *file),
        Act::Saved(file, _, _) => word_file(out, b"saved", *file),
        Act::Unsave(file) => word_file(out, b"unsave", *file),
        Act::Collect(made) => word_number(out, b"collect", u64::from(made.0)),
    }
}

// Appends the event's line; if it is a put, by these bytes.
pub(crate) fn event_line<T>(
    out: &mut Vec<u8>,
    event: &Event<T>,
    bytes: &[u8],
) -> Result<(), NoMemory>
    ensures ok { OnOk result (out.new.items ≡ out.old.items
        ++ line_of (event_text (event_with (λ _. bytes.now) event.now))) }
    ensures err { OnErr result (take (length out.old.items) out.new.items ≡ out.old.items) }
{
    print_number(out, u64::from(event.actor.0))?;
    word(out, b" ")?;
    act(out, &event.act, bytes)?;
    word(out, b"\n")
}
