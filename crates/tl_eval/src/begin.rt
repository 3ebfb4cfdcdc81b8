ghost use Rattle.std.specs.Prelude.{IfOk};
ghost use Rattle.tl_eval.specs.Begun.{Begins, IsOver};
ghost use Rattle.tl_eval.specs.Held.{code_of};

use crate::fault::Fault;
use crate::material::{Material, shared_conf, shared_inputs};
use crate::running::{Finished, Progress, Running};
use crate::stack::Stack;
use std::alloc::Global;
use std::sync::Arc;
use tl_lang::{Expr, JobSpecCore};
use tl_types::{NoMemory, Outcome};

/// An evaluation that has entered nothing. It is at its end where some input is a fault, where there
/// is no fuel and where there is no output.
pub fn begin(alloc: Global, job: &JobSpecCore, inputs: Vec<Outcome>) -> Result<Progress, NoMemory>
    ensures { IfOk result (Begins job.now inputs.items) }
{
    let outputs = job.program.program().outputs.as_slice();
    let Some(inputs) = shared_inputs(alloc, inputs)? else {
        return over(alloc, Fault::InputFault, outputs);
    };
    if job.fuel == 0 {
        return over(alloc, Fault::NoFuel, outputs);
    }
    let entries = shared_conf(alloc, job.conf.pairs())?;
    let material = Material {
        alloc,
        inputs: inputs.as_slice(),
        entries: entries.as_slice(),
    };
    let roots = material.prepare_all(outputs)?;
    let outcomes = Vec::with_capacity(alloc, usize::from(job.program.outputs()))?;
    let Some(root) = roots.get(0) else {
        return over(alloc, Fault::NoFuel, outputs);
    };
    let node = Arc::try_clone(root)?;
    Ok(Progress::Going(Running {
        alloc,
        fuel: job.fuel,
        roots,
        outcomes,
        spent: 0,
        node,
        stack: Stack::new(alloc),
        left: job.fuel,
    }))
}

/// The end of an evaluation that enters nothing: each output has the same fault.
fn over(alloc: Global, fault: Fault, outputs: &[Expr]) -> Result<Progress, NoMemory>
    ensures { IfOk result (IsOver (code_of fault) outputs.now) }
{
    let mut outcomes = Vec::new(alloc);
    for _output in outputs {
        outcomes.push(Outcome::Fault(fault.code()))?;
    }
    Ok(Progress::Over(Finished {
        outcomes,
        entered: 0,
    }))
}
