//! Programs are read, each from its one spelling.

ghost use Rattle.std.specs.Prelude.{◌≡◌, ◌∷◌, [], IfOk, IfErr, OnOk};
ghost use Rattle.tl_lang.specs.declared.program.Program.{Program};
ghost use Rattle.tl_kind.specs.Written.{IsProgram};
ghost use Rattle.tl_kind.specs.Refusals.{job, after, wrong_after, Refused, IsWhole, RefusedText, IsRefusal, Reads};
ghost use Rattle.tl_kind.specs.Reading.{StopsAs, IsJob, AreOutputs};

use crate::cursor::Cursor;
use crate::expression::several;
use crate::lang_error::{LangError, LangErrorKind};
use crate::stop::Stop;
use crate::token::{expect, letters_len, refused_first};
use std::alloc::Global;
use tl_lang::{Expr, Items, Program};

/// The greatest length of a program's text.
const TEXT_LIMIT: usize = 4_096;

/// The greatest number of outputs.
const OUTPUT_LIMIT: usize = 64;

/// How many parentheses may be open at once in an output.
const ROOM: u8 = 31;

/// The program that the text spells. A refusal names the first byte that can't stand there, with
/// the reason; a word that is no form's is refused at its first letter.
pub fn parse(alloc: Global, text: &[u8]) -> Result<Program, LangError>
    ensures found { IfOk result (IsProgram text.now) }
    ensures only { (program : Program) → IsProgram text.now program → Reads result program }
    ensures bad { IfErr result (IsRefusal text.now) }
{
    if text.len() > TEXT_LIMIT {
        return Err(LangError::Bad {
            at: TEXT_LIMIT,
            kind: LangErrorKind::TooLong,
        });
    }
    let mut cursor = Cursor { rest: text };
    match program(alloc, &mut cursor) {
        Ok(program) => Ok(program),
        Err(Stop::Refused(kind)) => Err(LangError::Bad {
            at: text.len() - cursor.rest.len(),
            kind,
        }),
        Err(Stop::NoMemory) => Err(LangError::NoMemory),
    }
}

// Reads a program, and the end of the text.
fn program(alloc: Global, cursor: &mut Cursor<'_>) -> Result<Program, Stop>
    ensures found { IfOk result (λ p. IsWhole cursor.old.rest.now p []) }
    ensures bad { IfErr result (StopsAs (RefusedText cursor.old.rest.now) cursor.new.rest.now) }
{
    expect(cursor, b'(')?;
    job_word(cursor)?;
    let outputs = outputs(alloc, cursor)?;
    let program = Program {
        outputs: Items::from_vec(outputs),
    };
    if !cursor.rest.is_empty() {
        return Err(Stop::Refused(LangErrorKind::Trailing));
    }
    Ok(program)
}

// Reads the word of a program.
fn job_word(cursor: &mut Cursor<'_>) -> Result<(), Stop>
    ensures found { OnOk result (IsJob cursor.old.rest.now cursor.new.rest.now) }
    ensures bad { IfErr result (StopsAs (RefusedText (0x28 ∷ cursor.old.rest.now)) cursor.new.rest.now) }
{
    let len = letters_len(cursor.rest, cursor.rest.len());
    if len == 0 {
        return Err(refused_first(cursor.rest));
    }
    let (letters, rest) = cursor.rest.split_at(len);
    if letters != b"job".as_slice() {
        return Err(Stop::Refused(LangErrorKind::UnknownForm));
    }
    cursor.rest = rest;
    Ok(())
}

// What is wrong after so many outputs.
fn wrong_after_outputs(text: &[u8], count: usize) -> Option<LangErrorKind>
    ensures { result ≡ wrong_after job count text.now }
{
    let Some((first, _)) = text.split_first() else {
        return Some(LangErrorKind::End);
    };
    if *first == b' ' {
        return if count < OUTPUT_LIMIT {
            None
        } else {
            Some(LangErrorKind::TooManyOutputs)
        };
    }
    if *first == b')' && count > 0 {
        return None;
    }
    Some(LangErrorKind::Unexpected)
}

// Reads the outputs of a program, and its end.
fn outputs(alloc: Global, cursor: &mut Cursor<'_>) -> Result<Vec<Expr>, Stop>
    ensures found { IfOk result (λ v. AreOutputs cursor.old.rest.now v.items cursor.new.rest.now) }
    ensures bad { IfErr result (StopsAs (Refused (after job 0 31) cursor.old.rest.now) cursor.new.rest.now) }
{
    let outputs = several(alloc, cursor, ROOM, OUTPUT_LIMIT)?;
    if let Some(kind) = wrong_after_outputs(cursor.rest, outputs.len()) {
        return Err(Stop::Refused(kind));
    }
    expect(cursor, b')')?;
    Ok(outputs)
}
