//! The calls of one turn.

ghost use Rattle.std.specs.Prelude.{◌≡◌, ◌<◌, ◌≤◌, true, length};
ghost use Rattle.tl_model.specs.declared.command.Command.TheVariants.{Delete, Free, Job};
ghost use Rattle.tl_model.specs.declared.command.Command.TheVariants.{List, Mkdir, Pin, Rename};
ghost use Rattle.tl_model.specs.declared.command.Command.TheVariants.{Stat, Unpin};
ghost use Rattle.tl_model.specs.Past.{command_with};
ghost use Rattle.tl_model.specs.Rules.{put_has_its_bytes};
ghost use Rattle.tl_cluster.specs.Called.{IsFitting};
ghost use Rattle.tl_pieces.specs.Lines.{IsLoseLine, IsNamesLine, IsPutLine};
ghost use Rattle.tl_work.specs.Setting.{setting};
ghost use Rattle.tl_clients.specs.Asks.{asks_no_read};

use crate::client::Client;
use std::alloc::Global;
use tl_desk::Desk;
use tl_io::{Depot, DepotError};
use tl_lang::JobSpecCore;
use tl_model::{Answer, ClientError, Command};
use tl_types::{Items, Path, Prio, Shared, WorkerId, sha256_digest};

impl<K: Desk<D::Ticket>, D: Depot> Client<K, D> {
    /// Makes a file of at most 1,048,576 bytes: they are saved in the checkpoint store, and then
    /// the put is called. `StoreFault` comes only where the store met a fault; then nothing is
    /// called.
    pub fn put(&mut self, alloc: Global, path: &Path, bytes: &[u8]) -> Result<Answer, ClientError>
        requires length { length bytes.now ≤ 1048576 }
        ensures line { IsPutLine (setting K.whole D.Ticket.tells D.Ticket.content
            (K.post (K.home self.old.desk)) self.old.worker)
            (record { before = D.faults self.old.depot; now = D.faults self.new.depot })
            path.now bytes.now (K.seen self.old.desk) (K.seen self.new.desk) result }
        ensures never_falls { D.faults self.old.depot ≤ D.faults self.new.depot }
        ensures home { K.home self.new.desk ≡ K.home self.old.desk }
        ensures worker { self.new.worker ≡ self.old.worker }
    {
        let Ok(path) = path.clone() else {
            return Err(ClientError::NoMemory);
        };
        match self.depot.save(alloc, bytes) {
            Ok(ticket) => self.ask(
                alloc,
                Command::Put {
                    path,
                    len: bytes.len() as u64,
                    digest: sha256_digest(bytes),
                    ticket,
                },
            ),
            Err(DepotError::Failed) => Err(ClientError::StoreFault { at: None }),
            Err(DepotError::NoMemory) => Err(ClientError::NoMemory),
        }
    }

    /// Records a job. Its program must keep the kind rules for as many inputs and outputs as there
    /// are paths.
    pub fn submit(
        &mut self,
        alloc: Global,
        core: Shared<JobSpecCore>,
        prio: Prio,
        inputs: Items<Path>,
        outputs: Items<Path>,
    ) -> Result<Answer, ClientError>
        requires inputs { core.program.inputs ≡ length inputs }
        requires outputs { core.program.outputs ≡ length outputs }
        ensures line { IsNamesLine (setting K.whole D.Ticket.tells D.Ticket.content
            (K.post (K.home self.old.desk)) self.old.worker)
            (record { before = D.faults self.old.depot; now = D.faults self.new.depot })
            (Job core prio inputs outputs) (K.seen self.old.desk) (K.seen self.new.desk) result }
        ensures never_falls { D.faults self.old.depot ≤ D.faults self.new.depot }
        ensures home { K.home self.new.desk ≡ K.home self.old.desk }
        ensures worker { self.new.worker ≡ self.old.worker }
    {
        self.ask(
            alloc,
            Command::Job {
                core,
                prio,
                inputs,
                outputs,
            },
        )
    }

    /// Takes a name away: a file's, or an empty directory's.
    pub fn delete(&mut self, alloc: Global, path: &Path) -> Result<Answer, ClientError>
        ensures line { IsNamesLine (setting K.whole D.Ticket.tells D.Ticket.content
            (K.post (K.home self.old.desk)) self.old.worker)
            (record { before = D.faults self.old.depot; now = D.faults self.new.depot })
            (Delete path.now) (K.seen self.old.desk) (K.seen self.new.desk) result }
        ensures never_falls { D.faults self.old.depot ≤ D.faults self.new.depot }
        ensures home { K.home self.new.desk ≡ K.home self.old.desk }
        ensures worker { self.new.worker ≡ self.old.worker }
    {
        let Ok(path) = path.clone() else {
            return Err(ClientError::NoMemory);
        };
        self.ask(alloc, Command::Delete { path })
    }

    /// Makes a directory.
    pub fn mkdir(&mut self, alloc: Global, path: &Path) -> Result<Answer, ClientError>
        ensures line { IsNamesLine (setting K.whole D.Ticket.tells D.Ticket.content
            (K.post (K.home self.old.desk)) self.old.worker)
            (record { before = D.faults self.old.depot; now = D.faults self.new.depot })
            (Mkdir path.now) (K.seen self.old.desk) (K.seen self.new.desk) result }
        ensures never_falls { D.faults self.old.depot ≤ D.faults self.new.depot }
        ensures home { K.home self.new.desk ≡ K.home self.old.desk }
        ensures worker { self.new.worker ≡ self.old.worker }
    {
        let Ok(path) = path.clone() else {
            return Err(ClientError::NoMemory);
        };
        self.ask(alloc, Command::Mkdir { path })
    }

    /// Gives a name, and all below it, another path.
    pub fn rename(&mut self, alloc: Global, from: &Path, to: &Path) -> Result<Answer, ClientError>
        ensures line { IsNamesLine (setting K.whole D.Ticket.tells D.Ticket.content
            (K.post (K.home self.old.desk)) self.old.worker)
            (record { before = D.faults self.old.depot; now = D.faults self.new.depot })
            (Rename from.now to.now) (K.seen self.old.desk) (K.seen self.new.desk) result }
        ensures never_falls { D.faults self.old.depot ≤ D.faults self.new.depot }
        ensures home { K.home self.new.desk ≡ K.home self.old.desk }
        ensures worker { self.new.worker ≡ self.old.worker }
    {
        let Ok(from) = from.clone() else {
            return Err(ClientError::NoMemory);
        };
        let Ok(to) = to.clone() else {
            return Err(ClientError::NoMemory);
        };
        self.ask(alloc, Command::Rename { from, to })
    }

    /// Keeps a file from eviction.
    pub fn pin(&mut self, alloc: Global, path: &Path) -> Result<Answer, ClientError>
        ensures line { IsNamesLine (setting K.whole D.Ticket.tells D.Ticket.content
            (K.post (K.home self.old.desk)) self.old.worker)
            (record { before = D.faults self.old.depot; now = D.faults self.new.depot })
            (Pin path.now) (K.seen self.old.desk) (K.seen self.new.desk) result }
        ensures never_falls { D.faults self.old.depot ≤ D.faults self.new.depot }
        ensures home { K.home self.new.desk ≡ K.home self.old.desk }
        ensures worker { self.new.worker ≡ self.old.worker }
    {
        let Ok(path) = path.clone() else {
            return Err(ClientError::NoMemory);
        };
        self.ask(alloc, Command::Pin { path })
    }

    /// A file may be evicted again.
    pub fn unpin(&mut self, alloc: Global, path: &Path) -> Result<Answer, ClientError>
        ensures line { IsNamesLine (setting K.whole D.Ticket.tells D.Ticket.content
            (K.post (K.home self.old.desk)) self.old.worker)
            (record { before = D.faults self.old.depot; now = D.faults self.new.depot })
            (Unpin path.now) (K.seen self.old.desk) (K.seen self.new.desk) result }
        ensures never_falls { D.faults self.old.depot ≤ D.faults self.new.depot }
        ensures home { K.home self.new.desk ≡ K.home self.old.desk }
        ensures worker { self.new.worker ≡ self.old.worker }
    {
        let Ok(path) = path.clone() else {
            return Err(ClientError::NoMemory);
        };
        self.ask(alloc, Command::Unpin { path })
    }

    /// Asks for the names in a directory.
    pub fn list(&mut self, alloc: Global, path: &Path) -> Result<Answer, ClientError>
        ensures line { IsNamesLine (setting K.whole D.Ticket.tells D.Ticket.content
            (K.post (K.home self.old.desk)) self.old.worker)
            (record { before = D.faults self.old.depot; now = D.faults self.new.depot })
            (List path.now) (K.seen self.old.desk) (K.seen self.new.desk) result }
        ensures never_falls { D.faults self.old.depot ≤ D.faults self.new.depot }
        ensures home { K.home self.new.desk ≡ K.home self.old.desk }
        ensures worker { self.new.worker ≡ self.old.worker }
    {
        let Ok(path) = path.clone() else {
            return Err(ClientError::NoMemory);
        };
        self.ask(alloc, Command::List { path })
    }

    /// Asks what a path names.
    pub fn stat(&mut self, alloc: Global, path: &Path) -> Result<Answer, ClientError>
        ensures line { IsNamesLine (setting K.whole D.Ticket.tells D.Ticket.content
            (K.post (K.home self.old.desk)) self.old.worker)
            (record { before = D.faults self.old.depot; now = D.faults self.new.depot })
            (Stat path.now) (K.seen self.old.desk) (K.seen self.new.desk) result }
        ensures never_falls { D.faults self.old.depot ≤ D.faults self.new.depot }
        ensures home { K.home self.new.desk ≡ K.home self.old.desk }
        ensures worker { self.new.worker ≡ self.old.worker }
    {
        let Ok(path) = path.clone() else {
            return Err(ClientError::NoMemory);
        };
        self.ask(alloc, Command::Stat { path })
    }

    /// Takes a file out of the memory that it is in.
    pub fn free(&mut self, alloc: Global, path: &Path) -> Result<Answer, ClientError>
        ensures line { IsNamesLine (setting K.whole D.Ticket.tells D.Ticket.content
            (K.post (K.home self.old.desk)) self.old.worker)
            (record { before = D.faults self.old.depot; now = D.faults self.new.depot })
            (Free path.now) (K.seen self.old.desk) (K.seen self.new.desk) result }
        ensures never_falls { D.faults self.old.depot ≤ D.faults self.new.depot }
        ensures home { K.home self.new.desk ≡ K.home self.old.desk }
        ensures worker { self.new.worker ≡ self.old.worker }
    {
        let Ok(path) = path.clone() else {
            return Err(ClientError::NoMemory);
        };
        self.ask(alloc, Command::Free { path })
    }

    /// The worker loses its memory.
    pub fn lose(&mut self, worker: WorkerId) -> Result<Answer, ClientError>
        requires lost { worker.0 < (K.post (K.home self.old.desk)).header.workers }
        ensures line { IsLoseLine (setting K.whole D.Ticket.tells D.Ticket.content
            (K.post (K.home self.old.desk)) self.old.worker)
            (record { before = D.faults self.old.depot; now = D.faults self.new.depot })
            worker (K.seen self.old.desk) (K.seen self.new.desk) result }
        ensures never_falls { D.faults self.old.depot ≤ D.faults self.new.depot }
        ensures home { K.home self.new.desk ≡ K.home self.old.desk }
        ensures worker { self.new.worker ≡ self.old.worker }
    {
        match self.desk.lose(worker) {
            Ok(()) => Ok(Answer::Lost(worker)),
            Err(_) => Err(ClientError::NoMemory),
        }
    }

    // Makes a call that opens no read.
    fn ask(&mut self, alloc: Global, command: Command<D::Ticket>) -> Result<Answer, ClientError>
        requires fitting { IsFitting command }
        requires bytes { D.Ticket.tells ≡ true →
            put_has_its_bytes (command_with D.Ticket.content command) ≡ true }
        requires no_read { asks_no_read command ≡ true }
        ensures line { IsNamesLine (setting K.whole D.Ticket.tells D.Ticket.content
            (K.post (K.home self.old.desk)) self.old.worker)
            (record { before = D.faults self.old.depot; now = D.faults self.new.depot })
            command (K.seen self.old.desk) (K.seen self.new.desk) result }
        ensures depot { self.new.depot ≡ self.old.depot }
        ensures home { K.home self.new.desk ≡ K.home self.old.desk }
        ensures worker { self.new.worker ≡ self.old.worker }
    {
        match self.desk.call(alloc, command) {
            Ok((at, reply)) => Ok(Answer::Said { at, reply }),
            Err(_) => Err(ClientError::NoMemory),
        }
    }
}
