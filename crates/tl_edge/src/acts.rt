//! What an event does to the files.

ghost use Rattle.std.specs.Prelude.{◌≡◌};
ghost use Rattle.std.specs.Option.{option_copied};
ghost use Rattle.tl_model.specs.Past.{act_with};
ghost use Rattle.tl_edge.specs.Data.{acted, files_after, read_at, unnamed};

use crate::change::Change;
use crate::outputs::{Outputs, change_each, change_file, change_row, change_rows};
use tl_model::Act;
use tl_types::{FileId, Items};

/// The files after the act of this place in the journal, which leaves the file `gone` without a name.
/// `inputs` are those of the accepted records.
pub(crate) fn note_files<T>(
    files: &mut [Outputs],
    inputs: &[Items<FileId>],
    at: u64,
    gone: Option<FileId>,
    act: &Act<T>,
)
    ensures { files.new ≡ files_after inputs.now at gone (act_with (λ _. tt) act.now) files.old }
{
    unname(files, gone);
    note_act(files, inputs, at, act);
}

// The files after this one lost its name.
fn unname(files: &mut [Outputs], gone: Option<FileId>)
    ensures { files.new ≡ unnamed gone files.old }
{
    match gone {
        Some(lost) => change_file(files, lost, Change::Unname),
        None => {}
    }
}

// The files after the act, but for names and for who has them as input.
fn note_act<T>(files: &mut [Outputs], inputs: &[Items<FileId>], at: u64, act: &Act<T>)
    ensures { files.new ≡ acted inputs.now at (act_with (λ _. tt) act.now) files.old }
{
    match act {
        Act::Served(file, _) => change_file(files, *file, Change::CountRead),
        Act::Claim(_, made) => read_at(files, inputs.get(made.0 as usize)),
        Act::Done(worker, made) => change_row(files, *made, Change::Make(*worker, at)),
        Act::Lose(worker) => change_rows(files, Change::TakeFrom(*worker)),
        Act::Free(file) => change_file(files, *file, Change::Take),
        Act::Drop(worker, file) => change_file(files, *file, Change::TakeFrom(*worker)),
        Act::Load(worker, file) => change_file(files, *file, Change::Bring(*worker)),
        Act::Saved(file, _, _) => change_file(files, *file, Change::Secure),
        _ => {}
    }
}

// The files after a record was claimed that has these inputs, if there is one.
fn read_at(files: &mut [Outputs], found: Option<&Items<FileId>>)
    ensures { files.new ≡ read_at (option_copied found.entry) files.old }
{
    match found {
        Some(inputs) => change_each(files, inputs.as_slice(), Change::CountRead),
        None => {}
    }
}
