//! The files that a record makes.

ghost use Rattle.std.specs.Prelude.{◌≡◌, IfOk, map, slice_get};
ghost use Rattle.std.specs.List.{list_any};
ghost use Rattle.std.specs.Option.{option_copied};
ghost use Rattle.tl_model.specs.Past.{act_with};
ghost use Rattle.tl_model.specs.History.{files_from};
ghost use Rattle.tl_steps.specs.Steps.{changed_at};
ghost use Rattle.tl_plan.specs.Data.{all_awaited, awaited, is_lacking, new_output, outputs_after, with_awaited};

use crate::output::{Output, awaited, is_lacking, new_output, output_after};
use std::alloc::Global;
use std::marker::Model;
use tl_model::Act;
use tl_steps::Seat;
use tl_types::{FileId, NoMemory, RecordId};

/// The files that a record makes, in order. Contracts see them as a list.
#[derive(Debug, Drop)]
pub struct Outputs {
    items: Vec<Output>,
}

impl Model for Outputs {
    ghost use Rattle.std.specs.Prelude.{List};
    ghost use Rattle.tl_plan.specs.declared.output.Output.{Output as File};

    ghost Value = { List File };

    ghost view = { λ outputs. outputs.items.items };
}

impl Outputs {
    /// The first files of a record, so many, none of which was ever in memory.
    pub(crate) fn new(alloc: Global, made: RecordId, count: u8) -> Result<Outputs, NoMemory>
        ensures { IfOk result (λ outputs. outputs ≡ map new_output (files_from made 0 count)) }
    {
        let mut items = Vec::new(alloc);
        for out in 0..count {
            items.push(new_output(FileId { rec: made, out }))?;
        }
        Ok(Outputs { items })
    }

    /// The file of a number, if there is one.
    pub(crate) fn get(&self, out: u8) -> Option<&Output>
        ensures { option_copied result ≡ slice_get self.now out }
    {
        self.items.get(out as usize)
    }

    /// Whether one of the files is wanted, and neither in memory nor saved.
    pub(crate) fn lacks(&self, seats: &[Seat]) -> bool
        ensures { result ≡ list_any (is_lacking seats.now) self.now }
    {
        self.items.iter().any(|output| is_lacking(seats, output))
    }

    // The files after an act.
    fn note<T>(&mut self, act: &Act<T>)
        ensures { self.new ≡ outputs_after (act_with (λ _. tt) act.now) self.old }
    {
        note_outputs(&mut self.items, act);
    }

    // The file of a number, if there is one, is an input of a task.
    fn await_output(&mut self, out: u8)
        ensures { self.new ≡ changed_at out awaited self.old }
    {
        await_at(&mut self.items, out as usize);
    }
}

// The files after an act.
fn note_outputs<T>(outputs: &mut [Output], act: &Act<T>)
    ensures { outputs.new ≡ outputs_after (act_with (λ _. tt) act.now) outputs.old }
{
    for output in outputs.iter_mut() {
        *output = output_after(act, *output);
    }
}

// The file at a place, if there is one, is an input of a task.
fn await_at(outputs: &mut [Output], at: usize)
    ensures { outputs.new ≡ changed_at at awaited outputs.old }
{
    if at < outputs.len() {
        outputs[at] = awaited(outputs[at]);
    }
}

/// The files of each record after an act.
pub(crate) fn note_files<T>(files: &mut [Outputs], act: &Act<T>)
    ensures { files.new ≡ map (outputs_after (act_with (λ _. tt) act.now)) files.old }
{
    for outputs in files.iter_mut() {
        outputs.note(act);
    }
}

/// These files are inputs of a task.
pub(crate) fn await_all(files: &mut [Outputs], inputs: &[FileId])
    ensures { files.new ≡ all_awaited inputs.now files.old }
{
    for input in inputs {
        await_file(files, *input);
    }
}

// The file, if there is such a one, is an input of a task.
fn await_file(files: &mut [Outputs], file: FileId)
    ensures { files.new ≡ with_awaited file files.old }
{
    let at = file.rec.0 as usize;
    if at < files.len() {
        files[at].await_output(file.out);
    }
}
