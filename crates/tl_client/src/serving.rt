//! Serving a read whose file can be had at once.

ghost use Rattle.std.specs.Prelude.{◌≡◌, ◌<◌, Some, IfOk, OnErr};
ghost use Rattle.tl_model.specs.Actors.{OpenRead, open_read};
ghost use Rattle.tl_core.specs.Answers.{past_of};
ghost use Rattle.tl_client.specs.Pieces.{IsServedNow};

use crate::feeds::load_saved;
use std::alloc::Global;
use tl_core::{Cluster, Look};
use tl_io::{MemTicket, SureDepot};
use tl_types::{Actor, Block, FileId, NoMemory, Shared, WorkerId};

/// Serves the actor's open read on the file, if it is in a memory or saved. Where it is neither, or
/// memory runs out, nothing changes.
pub(crate) fn serve_now(
    alloc: Global,
    cluster: &mut Cluster<MemTicket>,
    depot: &mut SureDepot,
    actor: Actor,
    worker: WorkerId,
    file: FileId,
) -> Result<Option<Shared<Block>>, NoMemory>
    requires actor { actor.0 < 16 }
    requires worker { worker.0 < cluster.old.header.workers }
    requires reading { (read : OpenRead) × (open_read (past_of cluster.old) actor ≡ Some read) × (read.file ≡ file) }
    ensures ok { IfOk result (IsServedNow cluster.old.events cluster.new.events actor worker file) }
    ensures err { OnErr result (cluster.new ≡ cluster.old) }
    ensures header { cluster.new.header ≡ cluster.old.header }
{
    cluster.stands();
    match cluster.look(actor)? {
        Look::Have(block) => Ok(Some(block)),
        Look::Saved(saved) => {
            let block = Block::new(file, load_saved(alloc, depot, &saved)?);
            let served = cluster.loaded(actor, worker, Shared::new(alloc, block)?)?;
            Ok(Some(served))
        }
        Look::NotYet => Ok(None),
    }
}
