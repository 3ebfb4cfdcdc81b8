//! The files that a record makes.

ghost use Rattle.std.specs.Prelude.{◌≡◌, IfOk, map, if◌then◌else◌};
ghost use Rattle.tl_model.specs.History.{files_from};
ghost use Rattle.tl_steps.specs.Steps.{changed_at};
ghost use Rattle.tl_edge.specs.Data.{changed, is_in, new_output, with_each, with_file, with_row, with_rows};

use crate::change::{Change, changed};
use crate::output::{Output, new_output};
use std::alloc::Global;
use std::marker::Model;
use tl_steps::same_file;
use tl_types::{FileId, NoMemory, RecordId};

/// The files that a record makes, in order. Contracts see them as a list.
#[derive(Debug, Drop)]
pub struct Outputs {
    items: Vec<Output>,
}

impl Model for Outputs {
    ghost use Rattle.std.specs.Prelude.{List};
    ghost use Rattle.tl_edge.specs.declared.output.Output.{Output as File};

    ghost Value = { List File };

    ghost view = { λ outputs. outputs.items.items };
}

impl Outputs {
    /// The first files of a record that is just accepted, so many.
    pub(crate) fn new(alloc: Global, made: RecordId, count: u8) -> Result<Outputs, NoMemory>
        ensures { IfOk result (λ outputs. outputs ≡ map new_output (files_from made 0 count)) }
    {
        let mut items = Vec::new(alloc);
        for out in 0..count {
            items.push(new_output(FileId { rec: made, out }))?;
        }
        Ok(Outputs { items })
    }

    /// The files, in order.
    pub(crate) fn as_slice(&self) -> &[Output]
        ensures { result.now ≡ self.now }
    {
        self.items.as_slice()
    }

    // The files after a change of the one of a number, if there is one.
    fn change(&mut self, out: u8, change: Change)
        ensures { self.new ≡ changed_at out (changed change) self.old }
    {
        change_at(&mut self.items, out as usize, change);
    }

    // The files after a change of all of them.
    fn change_all(&mut self, change: Change)
        ensures { self.new ≡ map (changed change) self.old }
    {
        change_outputs(&mut self.items, change);
    }
}

// The files after a change of the one at a place, if there is one.
fn change_at(outputs: &mut [Output], at: usize, change: Change)
    ensures { outputs.new ≡ changed_at at (changed change) outputs.old }
{
    if at < outputs.len() {
        outputs[at] = changed(change, outputs[at]);
    }
}

// The files after a change of all of them.
fn change_outputs(outputs: &mut [Output], change: Change)
    ensures { outputs.new ≡ map (changed change) outputs.old }
{
    for output in outputs.iter_mut() {
        *output = changed(change, *output);
    }
}

/// The files of each record after a change of one file, if a record makes it.
pub(crate) fn change_file(files: &mut [Outputs], file: FileId, change: Change)
    ensures { files.new ≡ with_file change file files.old }
{
    let at = file.rec.0 as usize;
    if at < files.len() {
        files[at].change(file.out, change);
    }
}

/// The files of each record after a change of all files of one record.
pub(crate) fn change_row(files: &mut [Outputs], made: RecordId, change: Change)
    ensures { files.new ≡ with_row change made files.old }
{
    let at = made.0 as usize;
    if at < files.len() {
        files[at].change_all(change);
    }
}

/// The files of each record after a change of all files.
pub(crate) fn change_rows(files: &mut [Outputs], change: Change)
    ensures { files.new ≡ with_rows change files.old }
{
    for outputs in files.iter_mut() {
        outputs.change_all(change);
    }
}

/// The files of each record after a change of each of these files. One that is named several times is
/// changed once.
pub(crate) fn change_each(files: &mut [Outputs], inputs: &[FileId], change: Change)
    ensures { files.new ≡ with_each change inputs.now files.old }
{
    let mut left = inputs;
    'inputs: while let Some((first, later)) = left.split_first() {
        change_unless(files, *first, later, change);
        left = later;
    }
}

// The files of each record after a change of one file, unless it is one of these.
fn change_unless(files: &mut [Outputs], file: FileId, later: &[FileId], change: Change)
    ensures { files.new ≡ (if is_in file later.now then files.old else with_file change file files.old) }
{
    if !is_in(later, file) {
        change_file(files, file, change);
    }
}

// Whether the file is one of these.
fn is_in(files: &[FileId], file: FileId) -> bool
    ensures { result ≡ is_in file files.now }
{
    files.iter().any(|other| same_file(file, *other))
}
