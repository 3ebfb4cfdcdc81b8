//! A file that a record makes.

ghost use Rattle.std.specs.Prelude.{◌≡◌};
ghost use Rattle.tl_edge.specs.Data.{new_output};

use tl_types::{FileId, WorkerId};

/// A file that a record makes, and what became of it.
#[derive(Clone, Copy, Debug)]
pub struct Output {
    pub file: FileId,
    /// The worker in whose memory it is, if it is in one.
    pub place: Option<WorkerId>,
    /// Whether a path names it.
    pub is_named: bool,
    pub is_saved: bool,
    /// Whether no accepted record has it as input.
    pub is_leaf: bool,
    /// How often it was served, or a record that reads it was claimed.
    pub reads: u64,
    /// The place of the last event that says that its record's job was done; 0 where there is none.
    pub last_done: u64,
}

/// A file whose record is just accepted.
pub(crate) fn new_output(file: FileId) -> Output
    ensures { result ≡ new_output file }
{
    Output {
        file,
        place: None,
        is_named: true,
        is_saved: false,
        is_leaf: true,
        reads: 0,
        last_done: 0,
    }
}
