//! The commands but the job, each read behind its word.

ghost use Rattle.std.specs.Prelude.{◌≡◌, ◌+◌, ◌∷◌, [], IfOk, IfErr};
ghost use Rattle.tl_types.specs.Path.{IsPath};
ghost use Rattle.tl_text.specs.PathText.{EndsToken};
ghost use Rattle.tl_model.specs.declared.header.Header.{Header};
ghost use Rattle.tl_script.specs.declared.word.Verb.TheVariants as verb_is;
ghost use Rattle.tl_script.specs.Tokens.{a_path, spaced};
ghost use Rattle.tl_script.specs.Places.{command, path_then, text_then, number_then, end, reading, after_verb, Refused, count_limit};
ghost use Rattle.tl_script.specs.Commands.{verb_of_form, Says};
ghost use Rattle.tl_script.specs.Reading.{StopsAs, AreArguments};

use crate::bad_kind::BadKind;
use crate::job::job;
use crate::script::Op;
use crate::stop::Stop;
use crate::token::{PRIO_COUNT, at_end, next_number, next_path, next_text, verb_at};
use crate::word::Verb;
use std::alloc::Global;
use tl_model::{Form, Header};
use tl_types::{Path, Prio, WorkerId};

/// The greatest number of turns that one command asks for.
const COUNT_LIMIT: u64 = 1_048_576;

// A put: its path and its text.
fn put(alloc: Global, text: &[u8]) -> Result<Op, Stop>
    requires { EndsToken text.now }
    ensures found { IfOk result (λ op. (header : Header) → AreArguments header verb_is.Put text.now op) }
    ensures bad { IfErr result (StopsAs (Refused (path_then (text_then end)) text.now)) }
{
    let (path, rest) = next_path(alloc, text)?;
    let (text, rest) = next_text(alloc, rest)?;
    at_end(rest)?;
    Ok(Op::Put { path, text })
}

// A read: its priority and its path.
fn read(alloc: Global, text: &[u8], form: Form) -> Result<Op, Stop>
    requires { EndsToken text.now }
    ensures found { IfOk result (λ op. (header : Header) → AreArguments header (verb_of_form form) text.now op) }
    ensures bad { IfErr result (StopsAs (Refused reading text.now)) }
{
    let (prio, rest) = next_number(text, 0, PRIO_COUNT)?;
    let path = last_path(alloc, rest)?;
    let prio = Prio::new(prio as u8).unwrap();
    Ok(Op::Read { path, prio, form })
}

// A path, behind which nothing stands.
fn last_path(alloc: Global, text: &[u8]) -> Result<Path, Stop>
    requires { EndsToken text.now }
    ensures found { IfOk result (λ p. text.now ≡ spaced (a_path p ∷ [])) }
    ensures path { IfOk result (λ p. IsPath p) }
    ensures bad { IfErr result (StopsAs (Refused (path_then end) text.now)) }
{
    let (path, rest) = next_path(alloc, text)?;
    at_end(rest)?;
    Ok(path)
}

// A deletion: its path.
fn delete(alloc: Global, text: &[u8]) -> Result<Op, Stop>
    requires { EndsToken text.now }
    ensures found { IfOk result (λ op. (header : Header) → AreArguments header verb_is.Delete text.now op) }
    ensures bad { IfErr result (StopsAs (Refused (path_then end) text.now)) }
{
    let path = last_path(alloc, text)?;
    Ok(Op::Delete { path })
}

// A new directory: its path.
fn mkdir(alloc: Global, text: &[u8]) -> Result<Op, Stop>
    requires { EndsToken text.now }
    ensures found { IfOk result (λ op. (header : Header) → AreArguments header verb_is.Mkdir text.now op) }
    ensures bad { IfErr result (StopsAs (Refused (path_then end) text.now)) }
{
    let path = last_path(alloc, text)?;
    Ok(Op::Mkdir { path })
}

// A pin: its path.
fn pin(alloc: Global, text: &[u8]) -> Result<Op, Stop>
    requires { EndsToken text.now }
    ensures found { IfOk result (λ op. (header : Header) → AreArguments header verb_is.Pin text.now op) }
    ensures bad { IfErr result (StopsAs (Refused (path_then end) text.now)) }
{
    let path = last_path(alloc, text)?;
    Ok(Op::Pin { path })
}

// The end of a pin: its path.
fn unpin(alloc: Global, text: &[u8]) -> Result<Op, Stop>
    requires { EndsToken text.now }
    ensures found { IfOk result (λ op. (header : Header) → AreArguments header verb_is.Unpin text.now op) }
    ensures bad { IfErr result (StopsAs (Refused (path_then end) text.now)) }
{
    let path = last_path(alloc, text)?;
    Ok(Op::Unpin { path })
}

// A listing: its path.
fn list(alloc: Global, text: &[u8]) -> Result<Op, Stop>
    requires { EndsToken text.now }
    ensures found { IfOk result (λ op. (header : Header) → AreArguments header verb_is.List text.now op) }
    ensures bad { IfErr result (StopsAs (Refused (path_then end) text.now)) }
{
    let path = last_path(alloc, text)?;
    Ok(Op::List { path })
}

// A look at a path: its path.
fn stat(alloc: Global, text: &[u8]) -> Result<Op, Stop>
    requires { EndsToken text.now }
    ensures found { IfOk result (λ op. (header : Header) → AreArguments header verb_is.Stat text.now op) }
    ensures bad { IfErr result (StopsAs (Refused (path_then end) text.now)) }
{
    let path = last_path(alloc, text)?;
    Ok(Op::Stat { path })
}

// A freeing: its path.
fn free(alloc: Global, text: &[u8]) -> Result<Op, Stop>
    requires { EndsToken text.now }
    ensures found { IfOk result (λ op. (header : Header) → AreArguments header verb_is.Free text.now op) }
    ensures bad { IfErr result (StopsAs (Refused (path_then end) text.now)) }
{
    let path = last_path(alloc, text)?;
    Ok(Op::Free { path })
}

// A renaming: the path of now, and the one of then.
fn rename(alloc: Global, text: &[u8]) -> Result<Op, Stop>
    requires { EndsToken text.now }
    ensures found { IfOk result (λ op. (header : Header) → AreArguments header verb_is.Rename text.now op) }
    ensures bad { IfErr result (StopsAs (Refused (path_then (path_then end)) text.now)) }
{
    let (from, rest) = next_path(alloc, text)?;
    let to = last_path(alloc, rest)?;
    Ok(Op::Rename { from, to })
}

// A loss: its worker.
fn lose(text: &[u8], workers: u8) -> Result<Op, Stop>
    requires { EndsToken text.now }
    ensures found { IfOk result (λ op. (header : Header) → header.workers ≡ workers → AreArguments header verb_is.Lose text.now op) }
    ensures bad { IfErr result (StopsAs (Refused (number_then 0 workers end) text.now)) }
{
    let (worker, rest) = next_number(text, 0, workers as u64)?;
    at_end(rest)?;
    Ok(Op::Lose {
        worker: WorkerId(worker as u8),
    })
}

// Turns of a worker: the worker, and how many.
fn work(text: &[u8], workers: u8) -> Result<Op, Stop>
    requires { EndsToken text.now }
    ensures found { IfOk result (λ op. (header : Header) → header.workers ≡ workers → AreArguments header verb_is.Work text.now op) }
    ensures bad { IfErr result (StopsAs (Refused (number_then 0 workers (number_then 1 (count_limit + 1) end)) text.now)) }
{
    let (worker, rest) = next_number(text, 0, workers as u64)?;
    let (n, rest) = next_number(rest, 1, COUNT_LIMIT + 1)?;
    at_end(rest)?;
    Ok(Op::Work {
        worker: WorkerId(worker as u8),
        n: n as u32,
    })
}

// The command of the word, whose arguments the text is.
fn arguments(alloc: Global, verb: Verb, text: &[u8], header: &Header) -> Result<Op, Stop>
    requires { EndsToken text.now }
    ensures found { IfOk result (AreArguments header.now verb text.now) }
    ensures bad { IfErr result (StopsAs (Refused (after_verb header.now verb) text.now)) }
{
    match verb {
        Verb::Put => put(alloc, text),
        Verb::Job => job(alloc, text, header),
        Verb::Cat => read(alloc, text, Form::Cat),
        Verb::Sum => read(alloc, text, Form::Sum),
        Verb::Try => read(alloc, text, Form::Try),
        Verb::Delete => delete(alloc, text),
        Verb::Mkdir => mkdir(alloc, text),
        Verb::Rename => rename(alloc, text),
        Verb::Pin => pin(alloc, text),
        Verb::Unpin => unpin(alloc, text),
        Verb::List => list(alloc, text),
        Verb::Stat => stat(alloc, text),
        Verb::Free => free(alloc, text),
        Verb::Lose => lose(text, header.workers),
        Verb::Work => work(text, header.workers),
    }
}

/// The command that the text says.
pub(crate) fn command(alloc: Global, text: &[u8], header: &Header) -> Result<Op, Stop>
    ensures found { IfOk result (Says header.now text.now) }
    ensures bad { IfErr result (StopsAs (Refused (command header.now) (0x20 ∷ text.now))) }
{
    let Some((verb, rest)) = verb_at(text) else {
        return Err(Stop::Refused(BadKind::Command));
    };
    arguments(alloc, verb, rest, header)
}
