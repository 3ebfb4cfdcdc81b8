//! A file that a record makes.

ghost use Rattle.std.specs.Prelude.{◌≡◌};
ghost use Rattle.tl_model.specs.Past.{act_with};
ghost use Rattle.tl_plan.specs.Data.{awaited, is_here, is_lacking, new_output, output_after};

use tl_model::Act;
use tl_steps::{Seat, is_read, place_now, saves_now};
use tl_types::{FileId, WorkerId};

/// A file that a record makes, and what became of it.
#[derive(Clone, Copy, Debug)]
pub struct Output {
    pub file: FileId,
    /// The worker in whose memory it is, if it is in one.
    pub place: Option<WorkerId>,
    pub is_saved: bool,
    /// Whether a task that isn't running has it as input.
    pub is_awaited: bool,
}

/// A file that was never in a worker's memory.
pub(crate) fn new_output(file: FileId) -> Output
    ensures { result ≡ new_output file }
{
    Output {
        file,
        place: None,
        is_saved: false,
        is_awaited: false,
    }
}

/// The file where a task has it as input.
pub(crate) fn awaited(output: Output) -> Output
    ensures { result ≡ awaited output }
{
    Output {
        is_awaited: true,
        ..output
    }
}

/// Whether the file is in memory or saved.
pub(crate) fn is_here(output: &Output) -> bool
    ensures { result ≡ is_here output.now }
{
    output.place.is_some() || output.is_saved
}

/// Whether the file is wanted, and neither in memory nor saved.
pub(crate) fn is_lacking(seats: &[Seat], output: &Output) -> bool
    ensures { result ≡ is_lacking seats.now output.now }
{
    (is_read(seats, output.file) || output.is_awaited) && !is_here(output)
}

/// The file after an act. Who has it as input is found anew after each.
pub(crate) fn output_after<T>(act: &Act<T>, before: Output) -> Output
    ensures { result ≡ output_after (act_with (λ _. tt) act.now) before }
{
    Output {
        file: before.file,
        place: place_now(act, before.file, before.place),
        is_saved: saves_now(act, before.file) || before.is_saved,
        is_awaited: false,
    }
}
