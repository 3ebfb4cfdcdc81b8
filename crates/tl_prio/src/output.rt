//! A file that a record makes.

ghost use Rattle.std.specs.Prelude.{◌≡◌};
ghost use Rattle.tl_model.specs.Past.{act_with};
ghost use Rattle.tl_prio.specs.Data.{is_here, new_output, output_after};

use tl_model::Act;
use tl_steps::{place_now, saves_now};
use tl_types::{FileId, WorkerId};

/// A file that a record makes, and what became of it.
#[derive(Clone, Copy, Debug)]
pub struct Output {
    pub file: FileId,
    /// The worker in whose memory it is, if it is in one.
    pub place: Option<WorkerId>,
    pub is_saved: bool,
}

/// A file that was never in a worker's memory.
pub(crate) fn new_output(file: FileId) -> Output
    ensures { result ≡ new_output file }
{
    Output {
        file,
        place: None,
        is_saved: false,
    }
}

/// Whether the file is in memory or saved.
pub(crate) fn is_here(output: &Output) -> bool
    ensures { result ≡ is_here output.now }
{
    output.place.is_some() || output.is_saved
}

/// The file after an act.
pub(crate) fn output_after<T>(act: &Act<T>, before: Output) -> Output
    ensures { result ≡ output_after (act_with (λ _. tt) act.now) before }
{
    Output {
        file: before.file,
        place: place_now(act, before.file, before.place),
        is_saved: saves_now(act, before.file) || before.is_saved,
    }
}
