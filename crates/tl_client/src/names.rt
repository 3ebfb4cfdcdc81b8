//! The calls that make no file and read none.

ghost use Rattle.std.specs.Prelude.{◌≡◌, ◌<◌, true, false, None, IfOk};
ghost use Rattle.tl_model.specs.Past.{command_with};
ghost use Rattle.tl_model.specs.Rules.{put_has_its_bytes};
ghost use Rattle.tl_core.specs.Answers.{past_of};
ghost use Rattle.tl_core.specs.Called.{IsFitting, bytes_put};
ghost use Rattle.tl_client.specs.Pieces.{IsSaid, command_of};
ghost use Rattle.tl_client.specs.Rest.{IsAtRest, SameOpen, may_open};

use std::alloc::Global;
use tl_core::Cluster;
use tl_io::MemTicket;
use tl_model::{Answer, Command};
use tl_types::{Actor, NoMemory, Path};

/// What a client asks in one call that makes no file and reads none.
#[derive(Debug, Drop)]
pub enum NameCommand {
    /// A name is taken away: a file's, or an empty directory's.
    Delete { path: Path },
    /// A directory is made.
    Mkdir { path: Path },
    /// A name, and all below it, gets another path.
    Rename { from: Path, to: Path },
    /// A file is kept from eviction.
    Pin { path: Path },
    /// A file may be evicted again.
    Unpin { path: Path },
    /// The names in a directory are asked for.
    List { path: Path },
    /// What a path names is asked for.
    Stat { path: Path },
    /// A file is taken out of the memory that it is in.
    Free { path: Path },
}

impl NameCommand {
    // The same as a command of the namespace.
    fn into_command(self) -> Command<MemTicket>
        ensures same { result ≡ command_of self }
        ensures fitting { IsFitting result }
        ensures bytes { put_has_its_bytes (command_with (λ bytes. bytes) result) ≡ true }
        ensures no_read { may_open result ≡ false }
        ensures no_put { bytes_put result ≡ None }
    {
        match self {
            NameCommand::Delete { path } => Command::Delete { path },
            NameCommand::Mkdir { path } => Command::Mkdir { path },
            NameCommand::Rename { from, to } => Command::Rename { from, to },
            NameCommand::Pin { path } => Command::Pin { path },
            NameCommand::Unpin { path } => Command::Unpin { path },
            NameCommand::List { path } => Command::List { path },
            NameCommand::Stat { path } => Command::Stat { path },
            NameCommand::Free { path } => Command::Free { path },
        }
    }
}

/// Asks so: one call, which is answered as the history determines.
pub fn ask(
    alloc: Global,
    cluster: &mut Cluster<MemTicket>,
    actor: Actor,
    asked: NameCommand,
) -> Result<Answer, NoMemory>
    requires client { actor.0 < 8 }
    requires rest { IsAtRest (past_of cluster.old) actor }
    ensures ok { IfOk result (IsSaid cluster.old.events cluster.new.events actor (command_of asked)) }
    ensures rest { IsAtRest (past_of cluster.new) actor }
    ensures same { SameOpen (past_of cluster.old) (past_of cluster.new) }
    ensures header { cluster.new.header ≡ cluster.old.header }
{
    let (at, reply) = cluster.call(alloc, actor, asked.into_command())?;
    Ok(Answer::Said { at, reply })
}
