//! The files that a record makes.

ghost use Rattle.std.specs.Prelude.{◌≡◌, IfOk, map};
ghost use Rattle.std.specs.List.{list_any};
ghost use Rattle.tl_model.specs.Past.{act_with};
ghost use Rattle.tl_model.specs.History.{files_from};
ghost use Rattle.tl_gc.specs.Data.{is_held, is_unsaved, new_output, outputs_after};

use crate::output::{Output, is_held, is_unsaved, new_output, output_after};
use std::alloc::Global;
use std::marker::Model;
use tl_model::Act;
use tl_steps::Seat;
use tl_types::{FileId, NoMemory, RecordId};

/// The files that a record makes, in order. Contracts see them as a list.
#[derive(Debug, Drop)]
pub struct Outputs {
    items: Vec<Output>,
}

impl Model for Outputs {
    ghost use Rattle.std.specs.Prelude.{List};
    ghost use Rattle.tl_gc.specs.declared.output.Output.{Output as File};

    ghost Value = { List File };

    ghost view = { λ outputs. outputs.items.items };
}

impl Outputs {
    /// The first files of a record that is just accepted, so many.
    pub(crate) fn new(alloc: Global, made: RecordId, count: u8) -> Result<Outputs, NoMemory>
        ensures { IfOk result (λ outputs. outputs ≡ map new_output (files_from made 0 count)) }
    {
        let mut items = Vec::new(alloc);
        for out in 0..count {
            items.push(new_output(FileId { rec: made, out }))?;
        }
        Ok(Outputs { items })
    }

    /// Whether one of the files is unsaved, and named or openly read.
    pub(crate) fn has_held(&self, seats: &[Seat]) -> bool
        ensures { result ≡ list_any (is_held seats.now) self.now }
    {
        self.items.iter().any(|output| is_held(seats, output))
    }

    /// Whether the file is one of these, and unsaved.
    pub(crate) fn has_unsaved(&self, file: FileId) -> bool
        ensures { result ≡ list_any (is_unsaved file) self.now }
    {
        self.items.iter().any(|output| is_unsaved(file, output))
    }

    /// The files after an act that leaves the file `gone` without a name.
    pub(crate) fn note<T>(&mut self, act: &Act<T>, gone: Option<FileId>)
        ensures { self.new ≡ outputs_after (act_with (λ _. tt) act.now) gone self.old }
    {
        note_outputs(&mut self.items, act, gone);
    }
}

// The files after an act that leaves the file `gone` without a name.
fn note_outputs<T>(outputs: &mut [Output], act: &Act<T>, gone: Option<FileId>)
    ensures { outputs.new ≡ outputs_after (act_with (λ _. tt) act.now) gone outputs.old }
{
    for output in outputs.iter_mut() {
        *output = output_after(act, gone, *output);
    }
}
