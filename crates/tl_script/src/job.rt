//! The job, read behind its word.

ghost use Rattle.std.specs.Prelude.{◌≡◌, ◌+◌, ◌<◌, ◌≤◌, ℕ, List, [], ◌∷◌, length, true, false, if◌then◌else◌, bytes_eq, map, IfOk, IfErr};
ghost use Rattle.std.specs.List.{list_any, AllByRecursion};
ghost use Rattle.tl_types.specs.Path.{IsPath};
ghost use Rattle.tl_text.specs.PathText.{EndsToken};
ghost use Rattle.tl_lang.specs.Conf.{pairs_of, is_conf};
ghost use Rattle.tl_lang.specs.Kinds.{KindsHold};
ghost use Rattle.tl_model.specs.declared.header.Version.{Version};
ghost use Rattle.tl_model.specs.Limits.{output_limit};
ghost use Rattle.tl_script.specs.declared.bad_kind.BadKind.TheVariants as bad_kind;
ghost use Rattle.tl_script.specs.declared.stop.Stop.TheVariants as stop;
ghost use Rattle.tl_script.specs.declared.word.Verb.TheVariants as verb_is;
ghost use Rattle.tl_script.specs.declared.word.Mark.TheVariants as mark_is;
ghost use Rattle.tl_script.specs.Tokens.{a_mark, a_path, a_text, a_program, spaced};
ghost use Rattle.tl_script.specs.Places.{Place, settings, key, paths_then, program_then, inputs, after_verb, begins_with_slash, has_key, Refused, Follows, conf_limit, text_limit};
ghost use Rattle.tl_script.specs.Commands.{with_conf, with_paths};
ghost use Rattle.tl_script.specs.Reading.{StopsAs, AreArguments, keys_of, AreConf, IsPair, Precede, RefusedToo, AreFiles, file_tokens};

use crate::bad_kind::BadKind;
use crate::script::Op;
use crate::stop::Stop;
use crate::token::{PRIO_COUNT, after_mark, front_of, next_number, next_text, path_at, text_at};
use crate::word::Mark;
use std::alloc::Global;
use tl_kind::{LangError, check, parse};
use tl_lang::{Checked, Conf, JobSpecCore, PAIRS_LIMIT, Program};
use tl_model::{Header, Version};
use tl_types::{Bytes, Items, NoMemory, Path, Prio, Shared};

/// The greatest fuel of a job.
const FUEL_LIMIT: u64 = 16_777_216;

// A key and a value.
type Pair = (Vec<u8>, Vec<u8>);

// Whether a pair has the key.
fn has_key(pairs: &[Pair], key: &[u8]) -> bool
    ensures { result ≡ list_any (λ p. bytes_eq p.0 key.now) (pairs_of pairs.now) }
{
    for pair in pairs {
        if pair.0.as_slice() == key {
            return true;
        }
    }
    false
}

// Reads a key that no pair has.
fn next_key<'a>(alloc: Global, text: &'a [u8], pairs: &[Pair]) -> Result<(Bytes, &'a [u8]), Stop>
    requires { EndsToken text.now }
    ensures found { IfOk result (λ r. Follows text.now (a_text r.0) r.1.now) }
    ensures short { IfOk result (λ r. length r.0 ≤ text_limit) }
    ensures fresh { IfOk result (λ r. has_key (keys_of pairs.now) r.0 ≡ false) }
    ensures ended { IfOk result (λ r. EndsToken r.1.now) }
    ensures bad { IfErr result (λ stop. (version : Version)
        → StopsAs (Refused (key version (keys_of pairs.now)) text.now) stop) }
{
    let Some(front) = front_of(text) else {
        return Err(Stop::Refused(BadKind::Argument));
    };
    let Some((key, rest)) = text_at(alloc, front)? else {
        return Err(Stop::Refused(BadKind::Argument));
    };
    if has_key(pairs, key.as_slice()) {
        return Err(Stop::Refused(BadKind::Argument));
    }
    Ok((key, rest))
}

// Reads `conf`, a key that no pair has, and its value.
fn next_pair<'a>(alloc: Global, text: &'a [u8], pairs: &[Pair]) -> Result<(Pair, &'a [u8]), Stop>
    requires ended { EndsToken text.now }
    requires more { (rest : List ℕ) → ¬ Follows text.now (a_mark mark_is.In) rest }
    ensures found { IfOk result (λ r. IsPair text.now r.0.0.items r.0.1.items r.1.now) }
    ensures room { IfOk result (λ r. length pairs.now < conf_limit) }
    ensures short { IfOk result (λ r. (length r.0.0.items ≤ text_limit) × (length r.0.1.items ≤ text_limit)) }
    ensures fresh { IfOk result (λ r. has_key (keys_of pairs.now) r.0.0.items ≡ false) }
    ensures ended { IfOk result (λ r. EndsToken r.1.now) }
    ensures bad { IfErr result (λ stop. (version : Version)
        → StopsAs (Refused (settings version (keys_of pairs.now)) text.now) stop) }
{
    let Some(rest) = after_mark(text, Mark::Conf) else {
        return Err(Stop::Refused(BadKind::Argument));
    };
    if pairs.len() >= PAIRS_LIMIT {
        return Err(Stop::Refused(BadKind::Argument));
    }
    let (key, rest) = next_key(alloc, rest, pairs)?;
    let (value, rest) = next_text(alloc, rest)?;
    Ok(((key.into_vec(), value.into_vec()), rest))
}

// Reads the configuration, and `in`.
fn conf(alloc: Global, text: &[u8]) -> Result<(Vec<Pair>, &[u8]), Stop>
    requires { EndsToken text.now }
    ensures found { IfOk result (λ r. Precede text.now (λ more. with_conf (pairs_of r.0.items) (a_mark mark_is.In ∷ more)) r.1.now) }
    ensures conf { IfOk result (λ r. AreConf (pairs_of r.0.items)) }
    ensures ended { IfOk result (λ r. EndsToken r.1.now) }
    ensures later { IfOk result (λ r. (version : Version)
        → RefusedToo (settings version []) text.now (inputs version) r.1.now) }
    ensures bad { IfErr result (λ stop. (version : Version)
        → StopsAs (Refused (settings version []) text.now) stop) }
{
    let mut pairs = Vec::new(alloc);
    let mut rest = text;
    'pairs: loop {
        if let Some(after) = after_mark(rest, Mark::In) {
            return Ok((pairs, after));
        }
        let (pair, others) = next_pair(alloc, rest, &pairs)?;
        pairs.push(pair)?;
        rest = others;
    }
}

// The refusal of a token that stands in a list of paths and is none.
fn not_listed(front: &[u8]) -> Stop
    ensures { result ≡ stop.Refused (if begins_with_slash front.now then bad_kind.Path else bad_kind.Argument) }
{
    match front.split_first() {
        Some((first, _)) if *first == b'/' => Stop::Refused(BadKind::Path),
        _ => Stop::Refused(BadKind::Argument),
    }
}

// Reads a path of a list that may have so many, behind `count` of them, where the list does not end.
fn next_listed(
    alloc: Global,
    text: &[u8],
    limit: usize,
    count: usize,
) -> Result<(Path, &[u8]), Stop>
    requires { EndsToken text.now }
    ensures found { IfOk result (λ r. Follows text.now (a_path r.0) r.1.now) }
    ensures room { IfOk result (λ r. count < limit) }
    ensures ended { IfOk result (λ r. EndsToken r.1.now) }
    ensures bad { IfErr result (λ stop. (least : ℕ) (word : Mark) (after : ℕ → Place) → ((rest : List ℕ) → ¬ Follows text.now (a_mark word) rest)
        → StopsAs (Refused (paths_then limit least count word after) text.now) stop) }
{
    let Some(front) = front_of(text) else {
        return Err(Stop::Refused(BadKind::Argument));
    };
    let Some((path, rest)) = path_at(alloc, front)? else {
        return Err(not_listed(front));
    };
    if count >= limit {
        return Err(Stop::Refused(BadKind::Argument));
    }
    Ok((path, rest))
}

// Reads a list of paths, and the word that ends it.
fn paths(
    alloc: Global,
    text: &[u8],
    limit: usize,
    least: usize,
    word: Mark,
) -> Result<(Vec<Path>, &[u8]), Stop>
    requires { EndsToken text.now }
    ensures found { IfOk result (λ r. Precede text.now (λ more. with_paths r.0.items (a_mark word ∷ more)) r.1.now) }
    ensures paths { IfOk result (λ r. AllByRecursion IsPath r.0.items) }
    ensures few { IfOk result (λ r. (least ≤ length r.0.items) × (length r.0.items ≤ limit)) }
    ensures ended { IfOk result (λ r. EndsToken r.1.now) }
    ensures later { IfOk result (λ r. (after : ℕ → Place) → RefusedToo (paths_then limit least 0 word after) text.now (after (length r.0.items)) r.1.now) }
    ensures bad { IfErr result (λ stop. (after : ℕ → Place) → StopsAs (Refused (paths_then limit least 0 word after) text.now) stop) }
{
    let mut paths = Vec::new(alloc);
    let mut rest = text;
    'paths: loop {
        if let Some(after) = after_mark(rest, word) {
            if paths.len() < least {
                return Err(Stop::Refused(BadKind::Argument));
            }
            return Ok((paths, after));
        }
        let (path, others) = next_listed(alloc, rest, limit, paths.len())?;
        paths.push(path)?;
        rest = others;
    }
}

// Reads a program of the version, which is the rest of the line.
fn program(alloc: Global, text: &[u8], version: Version) -> Result<Program, Stop>
    requires { EndsToken text.now }
    ensures found { IfOk result (λ p. Follows text.now (a_program p) []) }
    ensures few { IfOk result (λ p. length p.outputs ≤ output_limit version) }
    ensures bad { IfErr result (λ stop. (inputs outputs : ℕ)
        → StopsAs (Refused (program_then version inputs outputs) text.now) stop) }
{
    let Some(front) = front_of(text) else {
        return Err(Stop::Refused(BadKind::Argument));
    };
    let program = match parse(alloc, front) {
        Ok(program) => program,
        Err(LangError::Bad { .. }) => return Err(Stop::Refused(BadKind::Program)),
        Err(LangError::NoMemory) => return Err(Stop::NoMemory),
    };
    if program.outputs.len() > version.output_limit() {
        return Err(Stop::Refused(BadKind::Program));
    }
    Ok(program)
}

// Reads a program of the version that keeps the kind rules.
fn checked(
    alloc: Global,
    text: &[u8],
    version: Version,
    inputs: u8,
    outputs: u8,
) -> Result<Checked, Stop>
    requires { EndsToken text.now }
    ensures found { IfOk result (λ c. Follows text.now (a_program c.program) []) }
    ensures for_inputs { IfOk result (λ c. c.inputs ≡ inputs) }
    ensures for_outputs { IfOk result (λ c. c.outputs ≡ outputs) }
    ensures kinds { IfOk result (λ c. KindsHold c.program c.inputs c.outputs) }
    ensures bad { IfErr result (StopsAs (Refused (program_then version inputs outputs) text.now)) }
{
    let program = program(alloc, text, version)?;
    match check(program, inputs, outputs) {
        Ok(checked) => Ok(checked),
        Err(_) => Err(Stop::Refused(BadKind::Kinds)),
    }
}

// The paths of a job, and its program.
#[derive(Drop)]
struct Files {
    inputs: Vec<Path>,
    outputs: Vec<Path>,
    program: Checked,
}

// Reads the inputs, the outputs and the program.
fn job_files(alloc: Global, text: &[u8], version: Version) -> Result<Files, Stop>
    requires { EndsToken text.now }
    ensures found { IfOk result (λ f. text.now ≡ spaced (file_tokens f.inputs.items f.outputs.items f.program)) }
    ensures files { IfOk result (λ f. AreFiles version f.inputs.items f.outputs.items f.program) }
    ensures bad { IfErr result (StopsAs (Refused (inputs version) text.now)) }
{
    let (inputs, rest) = paths(alloc, text, version.input_limit(), 0, Mark::Out)?;
    let (outputs, rest) = paths(alloc, rest, version.output_limit(), 1, Mark::Run)?;
    let program = checked(
        alloc,
        rest,
        version,
        inputs.len() as u8,
        outputs.len() as u8,
    )?;
    Ok(Files {
        inputs,
        outputs,
        program,
    })
}

// What a job does: its program, its configuration and its fuel.
fn core_of(
    alloc: Global,
    program: Checked,
    pairs: Vec<Pair>,
    fuel: u32,
) -> Result<Shared<JobSpecCore>, Stop>
    requires { is_conf (pairs_of pairs.items) ≡ true }
    ensures found { IfOk result (λ core. core ≡ record { program = program; conf = pairs_of pairs.items; fuel = fuel }) }
    ensures bad { IfErr result (λ stop. stop ≡ Stop.NoMemory) }
{
    let core = JobSpecCore {
        program,
        conf: Conf::new(pairs).unwrap(),
        fuel,
    };
    match Shared::new(alloc, core) {
        Ok(core) => Ok(core),
        Err(NoMemory) => Err(Stop::NoMemory),
    }
}

/// A job: its priority, its fuel, its configuration, its inputs and outputs, and its program.
pub(crate) fn job(alloc: Global, text: &[u8], header: &Header) -> Result<Op, Stop>
    requires { EndsToken text.now }
    ensures found { IfOk result (AreArguments header.now verb_is.Job text.now) }
    ensures bad { IfErr result (StopsAs (Refused (after_verb header.now verb_is.Job) text.now)) }
{
    let (prio, rest) = next_number(text, 0, PRIO_COUNT)?;
    let (fuel, rest) = next_number(rest, 1, FUEL_LIMIT + 1)?;
    let (pairs, rest) = conf(alloc, rest)?;
    let files = job_files(alloc, rest, header.version)?;
    Ok(Op::Job {
        core: core_of(alloc, files.program, pairs, fuel as u32)?,
        prio: Prio::new(prio as u8).unwrap(),
        inputs: Items::from_vec(files.inputs),
        outputs: Items::from_vec(files.outputs),
    })
}
