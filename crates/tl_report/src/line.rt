//! The line of an answer in a transcript.

ghost use Rattle.std.specs.Prelude.{◌≡◌, ◌≢◌, ◌++◌, length, take, Err, OnOk, OnErr};
ghost use Rattle.tl_report.specs.Words.{answer_number, error_number, number_of, words_of, transcript_line};

use crate::print::{answer, error, number, then_number, word};
use tl_model::{Answer, ClientError, Form};
use tl_types::NoMemory;

// The number of the answered call.
fn answer_number(said: &Answer) -> Option<u64>
    ensures { result ≡ answer_number said.now }
{
    match said {
        Answer::Said { at, .. } | Answer::Read { at, .. } | Answer::NotYet { at, .. } => Some(*at),
        Answer::Count(..) | Answer::Lost(_) | Answer::Peeked { .. } => None,
    }
}

// The number of the call that was not answered.
fn error_number(why: &ClientError) -> Option<u64>
    ensures { result ≡ error_number why.now }
{
    match why {
        ClientError::StoreFault { at } | ClientError::Damaged { at, .. } => *at,
        ClientError::NoMemory => None,
    }
}

// The number of the call, where it stands in the history.
fn number_of(said: &Result<Answer, ClientError>) -> Option<u64>
    ensures { result ≡ number_of said.now }
{
    match said {
        Ok(said) => answer_number(said),
        Err(why) => error_number(why),
    }
}

// Appends the words.
fn words(out: &mut Vec<u8>, said: &Result<Answer, ClientError>, form: Form) -> Result<(), NoMemory>
    requires { said.now ≢ Err ClientError.NoMemory }
    ensures ok { OnOk result (out.new.items ≡ out.old.items ++ words_of form said.now) }
    ensures err { OnErr result (take (length out.old.items) out.new.items ≡ out.old.items) }
{
    match said {
        Ok(said) => answer(out, form, said),
        Err(why) => error(out, why),
    }
}

// Appends the line, or some front of it.
fn append_line(
    out: &mut Vec<u8>,
    client: u8,
    said: &Result<Answer, ClientError>,
    form: Form,
) -> Result<(), NoMemory>
    requires { said.now ≢ Err ClientError.NoMemory }
    ensures ok { OnOk result (out.new.items ≡ out.old.items ++ transcript_line client said.now form) }
    ensures err { OnErr result (take (length out.old.items) out.new.items ≡ out.old.items) }
{
    number(out, number_of(said))?;
    then_number(out, u64::from(client))?;
    word(out, b" ")?;
    words(out, said, form)?;
    word(out, b"\n")
}

/// Appends the line of an answer: the number of its call, or `-` where it has none, the client in
/// decimal, the words, and a line feed. A file's bytes are quoted for `Form::Cat` and `Form::Try`;
/// for `Form::Sum` their digest stands in their place. Want of memory has no line. An `Err` leaves
/// `out` as it was.
pub fn transcript_line(
    out: &mut Vec<u8>,
    client: u8,
    said: &Result<Answer, ClientError>,
    form: Form,
) -> Result<(), NoMemory>
    requires { said.now ≢ Err ClientError.NoMemory }
    ensures ok { OnOk result (out.new.items ≡ out.old.items ++ transcript_line client said.now form) }
    ensures err { OnErr result (out.new.items ≡ out.old.items) }
{
    let start = out.len();
    let printed = append_line(out, client, said, form);
    if printed.is_err() {
        out.truncate(start);
    }
    printed
}
