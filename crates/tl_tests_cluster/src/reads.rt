//! Reads by clients. What is open at each turn is looked up first.

ghost use Rattle.std.specs.Prelude.{◌≡◌, ◌<◌, true, IsSome, OnOk};
ghost use Rattle.tl_model.specs.Actors.{open_read};
ghost use Rattle.tl_cluster.specs.Looks.{IsSavedBlock};
ghost use Rattle.tl_cluster.specs.State.{past_of};

use crate::calls::Untold;
use crate::runs::{block_of, known};
use std::alloc::Global;
use std::test::Fail;
use tl_cluster::Look;
use tl_model::Saved;
use tl_types::{Actor, Block, Digest, FileId, WorkerId};
use tl_walk::{open_read, saved_as};

// What a look finds: a block of this file and digest, what was saved with this length and digest, or neither.
#[derive(Clone, Copy, Debug, PartialEq, Eq)]
pub(crate) enum Seen {
    Block(FileId, Digest),
    Kept(u64, Digest),
    Fault,
    Nothing,
}

// The actor has a read open.
fn reading(cluster: &Untold, actor: Actor) -> Result<(), Fail>
    ensures { OnOk result (IsSome (open_read (past_of cluster.now) actor)) }
{
    if open_read(cluster.journal().events(), actor).is_none() {
        return Err(Fail::from("no read is open"));
    }
    Ok(())
}

// What the actor finds of the file that it reads.
pub(crate) fn look(cluster: &mut Untold, actor: Actor) -> Result<Seen, Fail>
    requires { actor.0 < 16 }
{
    reading(cluster, actor)?;
    match cluster.look(actor)? {
        Look::Have(block) => Ok(Seen::Block(block.get().file(), block.get().digest())),
        Look::Saved(Saved::Held { len, digest, .. }) => Ok(Seen::Kept(len, digest)),
        Look::Saved(Saved::Failed(_)) => Ok(Seen::Fault),
        Look::NotYet => Ok(Seen::Nothing),
    }
}

// Gives up the actor's read.
pub(crate) fn shut(cluster: &mut Untold, actor: Actor) -> Result<(), Fail>
    requires { actor.0 < 16 }
{
    reading(cluster, actor)?;
    cluster.shut(actor);
    Ok(())
}

// Whether the block's file was saved with its size and digest.
fn is_saved_block(cluster: &Untold, block: &Block) -> bool
    ensures { result ≡ true → IsSavedBlock cluster.now block.now }
{
    match saved_as(cluster.journal().events(), block.file()) {
        Some(saved) => {
            saved.size() == block.outcome().size() as u64 && saved.digest() == block.digest()
        }
        None => false,
    }
}

// Serves the actor's read by a block of the text, which must be what was saved of the file; answers the block's file
// and digest that it is served by.
pub(crate) fn load(
    alloc: Global,
    cluster: &mut Untold,
    actor: Actor,
    text: &str,
) -> Result<(FileId, Digest), Fail>
    requires { actor.0 < 16 }
{
    known(cluster, WorkerId(0))?;
    let read = open_read(cluster.journal().events(), actor).ok_or("no read is open")?;
    let block = block_of(alloc, read.file(), text)?;
    if !is_saved_block(cluster, block.get()) {
        return Err(Fail::from("the block is not what was saved"));
    }
    let served = cluster.loaded(actor, WorkerId(0), block)?;
    Ok((served.get().file(), served.get().digest()))
}
