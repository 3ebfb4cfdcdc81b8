//! A file that a record makes.

ghost use Rattle.std.specs.Prelude.{◌≡◌};
ghost use Rattle.tl_model.specs.Past.{act_with};
ghost use Rattle.tl_gc.specs.Data.{is_held, is_unsaved, new_output, output_after};

use tl_model::Act;
use tl_steps::{Seat, is_gone, is_read, same_file, saves_now};
use tl_types::FileId;

/// A file that a record makes, and what became of it.
#[derive(Clone, Copy, Debug)]
pub struct Output {
    pub file: FileId,
    pub is_saved: bool,
    /// Whether a path names it.
    pub is_named: bool,
}

/// A file whose record is just accepted.
pub(crate) fn new_output(file: FileId) -> Output
    ensures { result ≡ new_output file }
{
    Output {
        file,
        is_saved: false,
        is_named: true,
    }
}

/// The file after an act that leaves the file `gone` without a name.
pub(crate) fn output_after<T>(act: &Act<T>, gone: Option<FileId>, before: Output) -> Output
    ensures { result ≡ output_after (act_with (λ _. tt) act.now) gone before }
{
    Output {
        file: before.file,
        is_saved: saves_now(act, before.file) || before.is_saved,
        is_named: before.is_named && !is_gone(gone, before.file),
    }
}

/// Whether the file is unsaved, and named or openly read.
pub(crate) fn is_held(seats: &[Seat], output: &Output) -> bool
    ensures { result ≡ is_held seats.now output.now }
{
    !output.is_saved && (output.is_named || is_read(seats, output.file))
}

/// Whether it is this file, and unsaved.
pub(crate) fn is_unsaved(file: FileId, output: &Output) -> bool
    ensures { result ≡ is_unsaved file output.now }
{
    same_file(output.file, file) && !output.is_saved
}
