ghost use Rattle.std.specs.Prelude.{◌≡◌};
ghost use Rattle.std.specs.List.{list_any};
ghost use Rattle.std.specs.Option.{option_copied};
ghost use Rattle.tl_types.specs.Same.{file_same};

use tl_model::Record;
use tl_types::{FileId, Items};

/// A record that was added, or what is left of it once it is removed: the files that it read.
#[derive(Debug, Drop)]
pub enum Slot {
    Kept(Record),
    /// A removed put. A put reads no file.
    PutRemoved,
    /// A removed job, with its inputs.
    JobRemoved(Items<FileId>),
}

impl Slot {
    ghost use Rattle.tl_lineage.specs.Slots.{has_read, kept_in, removed};

    // The record; `None` exactly where it was removed.
    pub(crate) fn record(&self) -> Option<&Record>
        ensures { option_copied result ≡ kept_in self.now }
    {
        match self {
            Slot::Kept(kept) => Some(kept),
            Slot::PutRemoved => None,
            Slot::JobRemoved(_) => None,
        }
    }

    // Whether the record has this file among its inputs.
    pub(crate) fn has_read(&self, f: FileId) -> bool
        ensures { result ≡ has_read f self.now }
    {
        match self {
            Slot::Kept(Record::Put { .. }) => false,
            Slot::Kept(Record::Job { inputs, .. }) => is_among(f, inputs.as_slice()),
            Slot::PutRemoved => false,
            Slot::JobRemoved(inputs) => is_among(f, inputs.as_slice()),
        }
    }

    // The slot after its record is removed.
    pub(crate) fn removed(self) -> Slot
        ensures { result ≡ removed self }
    {
        match self {
            Slot::Kept(Record::Put { .. }) => Slot::PutRemoved,
            Slot::Kept(Record::Job { inputs, .. }) => Slot::JobRemoved(inputs),
            removed => removed,
        }
    }
}

// Whether a file is among these.
fn is_among(f: FileId, files: &[FileId]) -> bool
    ensures { result ≡ list_any (file_same f) files.now }
{
    files.iter().any(|file| f == *file)
}
