//! The lines that are printed, each client's together.

ghost use Rattle.std.specs.Prelude.{◌≡◌, ◌∷◌, ◌++◌, [], Ok, IfOk, OnOk};
ghost use Rattle.tl_report.specs.Words.{transcript_line};
ghost use Rattle.tl_run.specs.Plays.{client_text, transcript};

use std::alloc::Global;
use std::marker::Model;
use tl_model::{Answer, Form};
use tl_report::transcript_line;
use tl_script::CLIENT_LIMIT;
use tl_types::NoMemory;

/// A printed line, and the client whose command it answers.
#[derive(Drop)]
pub(crate) struct Printed {
    client: u8,
    text: Vec<u8>,
}

impl Model for Printed {
    ghost use Rattle.tl_run.specs.Plays.{Printed as Seen};

    ghost Value = { Seen };

    ghost view = { λ p. record { client = p.client; text = p.text.items } };
}

/// Prints the answer of a client's command, on a line after those of earlier commands.
pub(crate) fn print(
    alloc: Global,
    printed: &mut Vec<Printed>,
    client: u8,
    answer: Answer,
    form: Form,
) -> Result<(), NoMemory>
    ensures { OnOk result (printed.new.items ≡
        printed.old.items ++ (record { client = client; text = transcript_line client (Ok answer) form } ∷ [])) }
{
    let mut text = Vec::new(alloc);
    transcript_line(&mut text, client, &Ok(answer), form)?;
    printed.push(Printed { client, text })?;
    Ok(())
}

/// The text of printed lines: those of each client together, in their order, the clients in ascending
/// order.
pub(crate) fn transcript(alloc: Global, printed: &[Printed]) -> Result<Vec<u8>, NoMemory>
    ensures { IfOk result (λ text. text.items ≡ transcript printed.now) }
{
    let mut text = Vec::new(alloc);
    for client in 0..CLIENT_LIMIT + 1 {
        append_client(&mut text, printed, client)?;
    }
    Ok(text)
}

// Appends the lines of a client.
fn append_client(text: &mut Vec<u8>, printed: &[Printed], client: u8) -> Result<(), NoMemory>
    ensures { OnOk result (text.new.items ≡ text.old.items ++ client_text client printed.now) }
{
    let mut rest = printed;
    'lines: while let Some((line, later)) = rest.split_first() {
        if line.client == client {
            text.extend_from_slice(&line.text)?;
        }
        rest = later;
    }
    Ok(())
}
