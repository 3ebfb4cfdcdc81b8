//! Several blocks come into one worker's memory, all or none.

ghost use Rattle.std.specs.Prelude.{◌≡◌, ◌<◌, false, length, OnOk, OnErr};
ghost use Rattle.tl_fleet.specs.Events.{files_of, installed_each};
ghost use Rattle.tl_fleet.specs.Installs.{AreAbsent, removed_each};
ghost use Rattle.tl_fleet.specs.Order.{Ascends};
ghost use Rattle.tl_fleet.specs.Workers.{is_resident, installed};

use crate::fleet::{install_at, remove_at};
use crate::worker::Worker;
use tl_types::{Block, NoMemory, Shared, WorkerId};

// Puts copies of the blocks in front at a worker, one after another. Where memory runs out, those
// that were put are taken out again.
pub(crate) fn install_copies(
    workers: &mut [Worker],
    w: WorkerId,
    blocks: &[Shared<Block>],
) -> Result<(), NoMemory>
    requires worker { w.0 < length workers.old }
    requires absent { AreAbsent blocks.now workers.old }
    requires ascending { Ascends (files_of blocks.now) }
    ensures ok { OnOk result (workers.new ≡ installed_each w blocks.now workers.old) }
    ensures err { OnErr result (workers.new ≡ workers.old) }
{
    for i in 0..blocks.len() {
        if install_copy(workers, w, &blocks[i]).is_err() {
            remove_each(workers, w, &blocks[..i]);
            return Err(NoMemory);
        }
    }
    Ok(())
}

// Puts a copy of a block in front at a worker.
fn install_copy(workers: &mut [Worker], w: WorkerId, block: &Shared<Block>) -> Result<(), NoMemory>
    requires worker { w.0 < length workers.old }
    requires absent { is_resident block.now.file workers.old ≡ false }
    ensures ok { OnOk result (workers.new ≡ installed w block.now workers.old) }
    ensures err { OnErr result (workers.new ≡ workers.old) }
{
    let copy = block.try_clone()?;
    match install_at(workers, w.0 as usize, copy) {
        Ok(()) => Ok(()),
        Err(_) => Err(NoMemory),
    }
}

// Takes the blocks' files out of a worker, the last first.
fn remove_each(workers: &mut [Worker], w: WorkerId, blocks: &[Shared<Block>])
    requires worker { w.0 < length workers.old }
    ensures { workers.new ≡ removed_each w blocks.now workers.old }
{
    for i in (0..blocks.len()).rev() {
        remove_at(workers, w.0 as usize, blocks[i].get().file());
    }
}
