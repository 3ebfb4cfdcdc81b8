//! Lists of files in ascending order.

ghost use Rattle.std.specs.Prelude.{◌≡◌, IfOk};
ghost use Rattle.tl_fleet.specs.Events.{among};
ghost use Rattle.tl_fleet.specs.Order.{Ascends};

use std::alloc::Global;
use tl_types::{FileId, NoMemory};

/// The files, each once, in ascending order.
pub fn ascending(alloc: Global, files: &[FileId]) -> Result<Vec<FileId>, NoMemory>
    ensures ascends { IfOk result (λ sorted. Ascends sorted.items) }
    ensures same { IfOk result (λ sorted. (f : FileId) → among f sorted.items ≡ among f files.now) }
{
    let mut sorted = Vec::from_slice(alloc, files)?;
    put_in_order(&mut sorted);
    Ok(sorted)
}

// Puts files in ascending order, and keeps each once.
fn put_in_order(files: &mut Vec<FileId>)
    ensures ascends { Ascends files.new.items }
    ensures same { (f : FileId) → among f files.new.items ≡ among f files.old.items }
{
    files.sort_unstable();
    files.dedup();
}
