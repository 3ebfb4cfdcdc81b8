//! A job evaluated in slices.
ghost use Rattle.std.specs.Prelude.{◌≡◌, ◌≤◌, length, slice_get, vec_len, IfOk, MatchOption};
ghost use Rattle.tl_types.specs.Outcome.{outcome_size};
ghost use Rattle.tl_lang.specs.Job.{job_entered, job_mean};

use std::alloc::{AllocError, Global};
use std::io::{self, ErrorKind};
use tl_eval::{Machine, Slice};
use tl_kind::{LangError, check, parse};
use tl_lang::{Conf, JobSpecCore, Program};
use tl_types::{Bytes, NoMemory, Outcome, Shared};

/// The most fuel of a job.
pub(crate) const FUEL: u32 = 16_777_216;

/// What an evaluation came to.
#[derive(Drop)]
pub(crate) struct Evaluated {
    /// How many units of fuel the outputs used together.
    pub units: u64,
    /// The outcomes of the outputs, in order.
    pub outcomes: Vec<Outcome>,
}

/// The job that a text spells, of one input and one output, with the most fuel.
pub(crate) fn job_of(alloc: Global, text: &str) -> io::Result<Shared<JobSpecCore>>
    ensures { IfOk result (λ job. job.program.inputs ≡ 1) }
{
    let program = program_of(alloc, text.as_bytes())?;
    let Ok(program) = check(program, 1, 1) else {
        return Err(refused());
    };
    let core = JobSpecCore {
        program,
        conf: Conf::new(Vec::new(alloc)).unwrap(),
        fuel: FUEL,
    };
    Ok(Shared::new(alloc, core).map_err(|_| AllocError)?)
}

// The program that a text spells.
fn program_of(alloc: Global, text: &[u8]) -> io::Result<Program> {
    match parse(alloc, text) {
        Ok(program) => Ok(program),
        Err(LangError::Bad { .. }) => Err(refused()),
        Err(LangError::NoMemory) => Err(AllocError.into()),
    }
}

// The error of a text that is no program.
fn refused() -> io::Error {
    io::Error::new(ErrorKind::InvalidInput, "no program")
}

/// The one input of a job, which holds a text.
pub(crate) fn input_of(alloc: Global, text: Vec<u8>) -> io::Result<Vec<Outcome>>
    ensures { IfOk result (λ inputs. vec_len inputs ≡ 1) }
{
    let Some(text) = Bytes::new(text) else {
        return Err(io::Error::new(ErrorKind::InvalidInput, "a text too long"));
    };
    let mut inputs = Vec::new(alloc);
    inputs.push(Outcome::Value(text))?;
    Ok(inputs)
}

/// Evaluates a job on these inputs, in slices of so many units of fuel.
pub(crate) fn evaluate(
    alloc: Global,
    job: &Shared<JobSpecCore>,
    inputs: Vec<Outcome>,
    units: u32,
) -> Result<Evaluated, NoMemory>
    requires units { 1 ≤ units }
    requires inputs { length inputs.items ≡ job.now.program.inputs }
    ensures units { IfOk result (λ end. end.units ≡ job_entered job.now inputs.items) }
    ensures outcomes { IfOk result (λ end. end.outcomes.items ≡ job_mean job.now inputs.items) }
{
    let _kinds = job.get().program.program();
    let mut machine = Machine::new(alloc, job, inputs)?;
    'slices: loop {
        match machine.slice(units)? {
            Slice::More => {}
            Slice::Done(outcomes) => {
                return Ok(Evaluated {
                    units: machine.entered(),
                    outcomes,
                });
            }
        }
    }
}

/// How many bytes the first of these outcomes holds.
pub(crate) fn first_size(outcomes: &[Outcome]) -> usize
    ensures { MatchOption (slice_get outcomes.now 0) (result ≡ 0) (λ outcome. result ≡ outcome_size outcome) }
{
    match outcomes.first() {
        Some(outcome) => outcome.size(),
        None => 0,
    }
}
