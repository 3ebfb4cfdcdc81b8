ghost use Rattle.std.specs.Prelude.{◌≡◌, ◌≤◌, true, false, length, All, IfOk, IsErr, OnErr};
ghost use Rattle.tl_eval.specs.Evaluation.{Answers, IsSound, failed, seen};
ghost use Rattle.tl_eval.specs.Running.{IsUnderWay};
ghost use Rattle.tl_lang.specs.Job.{job_mean, job_entered};
ghost use Rattle.tl_lang.specs.Kinds.{IsOutcome, KindsHold};

use crate::begin::begin;
use crate::running::{Finished, Progress, Running};
use std::alloc::Global;
use std::marker::Model;
use std::mem;
use tl_lang::JobSpecCore;
use tl_types::{NoMemory, Outcome, Shared};

/// The evaluation of a job. It goes on in slices, each of a number of units of fuel; a unit is the
/// entry of one expression. Contracts see it as what it will answer and how far it has come.
#[derive(Debug, Drop)]
pub struct Machine {
    state: State,
}

#[derive(Debug, Drop)]
pub enum State {
    Going(Running),
    /// At its end before the first slice.
    Over(Finished),
    /// Its outcomes were answered, after so many entries.
    Answered(u64),
    Failed,
}

/// What a slice answers.
#[derive(Debug, Drop)]
pub enum Slice {
    /// The evaluation has entered exactly the slice's units more, and is not at its end.
    More,
    /// The outcomes of the job's outputs, in order.
    Done(Vec<Outcome>),
}

impl Model for Machine {
    ghost use Rattle.tl_eval.specs.Evaluation.{Evaluation, seen, IsSound};

    ghost Value = { Evaluation };

    ghost view = { λ m. seen m.state };

    ghost invariant = { λ m. IsSound m.state };
}

impl Machine {
    /// The evaluation of a job on the outcomes of its inputs, with nothing entered. The inputs are
    /// moved into it, and the values of the configuration are copied once.
    pub fn new(
        alloc: Global,
        spec: &Shared<JobSpecCore>,
        inputs: Vec<Outcome>,
    ) -> Result<Machine, NoMemory>
        requires { KindsHold spec.now.program.program (length inputs.items) (length spec.now.program.program.outputs) }
        ensures begun { IfOk result (λ m. m ≡ record {
          outcomes = job_mean spec.now inputs.items;
          total = job_entered spec.now inputs.items;
          entered = 0;
          is_answered = false;
          has_failed = false;
        }) }
        ensures sound { IfOk result (λ m. All IsOutcome m.outcomes) }
    {
        let state = match begin(alloc, spec.get(), inputs)? {
            Progress::Going(running) => State::Going(running),
            Progress::Over(finished) => State::Over(finished),
        };
        Ok(Machine { state })
    }

    /// Goes on until `units` more expressions are entered, and through all that costs no fuel
    /// after them. Once it answered `NoMemory`, so does each later slice.
    pub fn slice(&mut self, units: u32) -> Result<Slice, NoMemory>
        requires units { 1 ≤ units }
        requires going { self.old.is_answered ≡ false }
        ensures answer { IfOk result (λ slice. Answers self.old units slice self.new) }
        ensures no_memory { OnErr result (self.new ≡ failed) }
        ensures failed { self.old.has_failed ≡ true → IsErr result }
    {
        match mem::replace(&mut self.state, State::Failed) {
            State::Going(running) => {
                let (state, slice) = run(running, units)?;
                self.state = state;
                Ok(slice)
            }
            State::Over(finished) => {
                self.state = State::Answered(finished.entered);
                Ok(Slice::Done(finished.outcomes))
            }
            State::Answered(_) => unreachable!(),
            State::Failed => Err(NoMemory),
        }
    }

    /// How many expressions were entered so far, in all outputs together; 0 once memory ran out.
    pub fn entered(&self) -> u64
        ensures { result ≡ self.now.entered }
    {
        match &self.state {
            State::Going(running) => running.spent + u64::from(running.fuel - running.left),
            State::Over(finished) => finished.entered,
            State::Answered(entered) => *entered,
            State::Failed => 0,
        }
    }
}

fn run(running: Running, units: u32) -> Result<(State, Slice), NoMemory>
    requires way { IsUnderWay running }
    requires units { 1 ≤ units }
    ensures { IfOk result (λ r. IsSound r.0 × Answers (seen (State.Going running)) units r.1 (seen r.0)) }
{
    let mut running = running;
    for _ in 0..units {
        match running.advance()? {
            Progress::Going(next) => running = next,
            Progress::Over(finished) => {
                return Ok((
                    State::Answered(finished.entered),
                    Slice::Done(finished.outcomes),
                ));
            }
        }
    }
    Ok((State::Going(running), Slice::More))
}
