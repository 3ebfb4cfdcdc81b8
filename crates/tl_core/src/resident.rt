ghost use Rattle.std.specs.Prelude.{◌≡◌, ◌+◌, ◌<◌, ◌≤◌, ◌∷◌, ◌++◌, [], filter, vec_len, vec_capacity};
ghost use Rattle.tl_types.specs.Same.{file_same};
ghost use Rattle.std.specs.Option.{option_copied};
ghost use Rattle.tl_core.specs.Residents.{file_held, found, is_elsewhere, is_other, without_file};
ghost use Rattle.tl_core.specs.Brought.{with_block, with_blocks};

use tl_types::{Block, FileId, Shared, WorkerId};

/// A block in a worker's memory, and the worker.
#[derive(Debug, Drop)]
pub struct Resident {
    pub worker: WorkerId,
    pub block: Shared<Block>,
}

/// The block of a file, with its worker.
pub(crate) fn find(residents: &[Resident], file: FileId) -> Option<&Resident>
    ensures { option_copied result ≡ found file residents.now }
{
    residents
        .iter()
        .find(|resident| same_file(file, resident.block.get().file()))
}

/// Whether two files are one.
pub(crate) fn same_file(a: FileId, b: FileId) -> bool
    ensures { result ≡ file_same a b }
{
    a == b
}

/// Brings the blocks to the worker, one after another, but those whose files are in some memory.
pub(crate) fn install(residents: &mut Vec<Resident>, worker: WorkerId, blocks: Vec<Shared<Block>>)
    requires { vec_len residents.old + vec_len blocks ≤ vec_capacity residents.old }
    ensures { residents.new.items ≡ with_blocks worker blocks.items residents.old.items }
{
    let mut rest = blocks;
    rest.reverse();
    while let Some(block) = rest.pop() {
        install_one(residents, worker, block);
    }
}

// Brings a block to the worker, unless its file is in some memory.
fn install_one(residents: &mut Vec<Resident>, worker: WorkerId, block: Shared<Block>)
    requires { vec_len residents.old < vec_capacity residents.old }
    ensures items { residents.new.items ≡ with_block worker block residents.old.items }
    ensures capacity { vec_capacity residents.old ≤ vec_capacity residents.new }
    ensures len { vec_len residents.new ≤ vec_len residents.old + 1 }
{
    if find(residents, block.get().file()).is_none() {
        push_within(residents, Resident { worker, block });
    }
}

/// Appends to a vector that has room for one more.
pub(crate) fn push_within(residents: &mut Vec<Resident>, resident: Resident)
    requires { vec_len residents.old < vec_capacity residents.old }
    ensures items { residents.new.items ≡ residents.old.items ++ resident ∷ [] }
    ensures capacity { vec_capacity residents.old ≤ vec_capacity residents.new }
    ensures len { vec_len residents.new ≡ vec_len residents.old + 1 }
{
    if residents.push(resident).is_err() {
        unreachable!();
    }
}

/// Takes away what is on the worker.
pub(crate) fn empty(residents: &mut Vec<Resident>, worker: WorkerId)
    ensures { residents.new.items ≡ filter (is_elsewhere worker) residents.old.items }
{
    residents.retain(|resident| resident.worker != worker);
}

/// The file, if it is in some memory.
pub(crate) fn file_held(residents: &[Resident], file: Option<FileId>) -> Option<FileId>
    ensures { result ≡ file_held residents.now file }
{
    match file {
        Some(file) if find(residents, file).is_some() => Some(file),
        _ => None,
    }
}

/// Takes a file away from each memory that it is in.
pub(crate) fn take_out(residents: &mut Vec<Resident>, file: Option<FileId>)
    ensures { residents.new.items ≡ without_file file residents.old.items }
{
    if let Some(file) = file {
        take_file(residents, file);
    }
}

// Takes the file away.
fn take_file(residents: &mut Vec<Resident>, file: FileId)
    ensures { residents.new.items ≡ filter (is_other file) residents.old.items }
{
    residents.retain(|resident| !same_file(resident.block.get().file(), file));
}
