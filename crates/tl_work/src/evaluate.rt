//! What a job makes of its inputs.

ghost use Rattle.std.specs.Prelude.{◌≡◌, ◌≤◌, length, IfOk};
ghost use Rattle.tl_lang.specs.Job.{job_mean};
ghost use Rattle.tl_work.specs.Made.{blocks_from};

use std::alloc::Global;
use tl_eval::{Machine, Slice};
use tl_lang::JobSpecCore;
use tl_types::{Block, FileId, NoMemory, Outcome, RecordId, Shared};

/// How many expressions are entered in one slice.
const SLICE: u32 = 1_024;

/// The outcomes of the job's outputs on these inputs, in order.
pub(crate) fn evaluate(
    alloc: Global,
    core: &Shared<JobSpecCore>,
    inputs: Vec<Outcome>,
) -> Result<Vec<Outcome>, NoMemory>
    requires { length inputs.items ≡ core.now.program.inputs }
    ensures { IfOk result (λ outcomes. outcomes.items ≡ job_mean core.now inputs.items) }
{
    let _kinds = core.get().program.program();
    let mut machine = Machine::new(alloc, core, inputs)?;
    'slices: loop {
        match machine.slice(SLICE)? {
            Slice::More => {}
            Slice::Done(outcomes) => return Ok(outcomes),
        }
    }
}

/// The blocks of a record's outputs, in order, which hold these outcomes.
pub(crate) fn blocks_of(
    alloc: Global,
    rec: RecordId,
    outcomes: Vec<Outcome>,
) -> Result<Vec<Shared<Block>>, NoMemory>
    requires { length outcomes.items ≤ 255 }
    ensures { IfOk result (λ blocks. blocks.items ≡ blocks_from rec 0 outcomes.items) }
{
    let mut rest = outcomes;
    rest.reverse();
    let mut blocks = Vec::new(alloc);
    let mut out = 0u8;
    'outcomes: while let Some(outcome) = rest.pop() {
        let block = Block::new(FileId { rec, out }, outcome);
        blocks.push(Shared::new(alloc, block)?)?;
        out += 1;
    }
    Ok(blocks)
}
