//! The files that a record makes.

ghost use Rattle.std.specs.Prelude.{◌≡◌, IfOk, map, slice_get};
ghost use Rattle.std.specs.Option.{option_copied};
ghost use Rattle.tl_model.specs.Past.{act_with};
ghost use Rattle.tl_model.specs.History.{files_from};
ghost use Rattle.tl_prio.specs.Data.{is_among, new_output, outputs_after};

use crate::output::{Output, new_output, output_after};
use std::alloc::Global;
use std::marker::Model;
use tl_model::Act;
use tl_steps::same_file;
use tl_types::{FileId, NoMemory, RecordId};

/// The files that a record makes, in order. Contracts see them as a list.
#[derive(Debug, Drop)]
pub struct Outputs {
    items: Vec<Output>,
}

impl Model for Outputs {
    ghost use Rattle.std.specs.Prelude.{List};
    ghost use Rattle.tl_prio.specs.declared.output.Output.{Output as File};

    ghost Value = { List File };

    ghost view = { λ outputs. outputs.items.items };
}

impl Outputs {
    /// The first files of a record, so many, none of which was ever in memory.
    pub(crate) fn new(alloc: Global, made: RecordId, count: u8) -> Result<Outputs, NoMemory>
        ensures { IfOk result (λ outputs. outputs ≡ map new_output (files_from made 0 count)) }
    {
        let mut items = Vec::new(alloc);
        for out in 0..count {
            items.push(new_output(FileId { rec: made, out }))?;
        }
        Ok(Outputs { items })
    }

    /// The file of a number, if there is one.
    pub(crate) fn get(&self, out: u8) -> Option<&Output>
        ensures { option_copied result ≡ slice_get self.now out }
    {
        self.items.get(out as usize)
    }

    /// Whether the file is one of these.
    pub(crate) fn contains(&self, file: FileId) -> bool
        ensures { result ≡ is_among self.now file }
    {
        self.items.iter().any(|output| same_file(file, output.file))
    }

    /// The files after an act.
    pub(crate) fn note<T>(&mut self, act: &Act<T>)
        ensures { self.new ≡ outputs_after (act_with (λ _. tt) act.now) self.old }
    {
        note_outputs(&mut self.items, act);
    }
}

// The files after an act.
fn note_outputs<T>(outputs: &mut [Output], act: &Act<T>)
    ensures { outputs.new ≡ outputs_after (act_with (λ _. tt) act.now) outputs.old }
{
    for output in outputs.iter_mut() {
        *output = output_after(act, *output);
    }
}
