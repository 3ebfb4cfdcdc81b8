ghost use Rattle.std.specs.Prelude.{◌≡◌, ℕ, ◌+◌, false, IfOk, OnErr, length};
ghost use Rattle.tl_types.specs.declared.actor.Actor.{Actor};
ghost use Rattle.tl_model.specs.declared.event.Act.TheVariants.{Call};
ghost use Rattle.tl_model.specs.Namespace.{Names as NameList, no_names};
ghost use Rattle.tl_model.specs.Replies.{reply_to, walk};
ghost use Rattle.tl_model.specs.History.{HistoryOf, names_after, record_made, records_of, reply_after, with_call};
ghost use Rattle.tl_names.specs.Answers.{Answers, HasFewOutputs, IsNamesOf, is_accepted, plain, tables};
ghost use Rattle.tl_names.specs.Found.{found};
ghost use Rattle.tl_names.specs.Pins.{PinsStandFor, pin_of};
ghost use Rattle.tl_names.specs.Standing.{StandsFor};
ghost use Rattle.tl_names.specs.Tables.{IsTree};

use crate::child::Child;
use crate::deletes::delete;
use crate::directory::Directory;
use crate::dirs::walk;
use crate::found::Found;
use crate::looks::{free, list, read, stat};
use crate::makes::{job, mkdir, put};
use crate::moves::rename;
use crate::pinning::set_pin;
use crate::pins::Pins;
use slab::Slab;
use std::alloc::Global;
use std::marker::Model;
use tl_io::Ticket;
use tl_model::{Command, Reply};
use tl_types::{FileId, NoMemory, Path, RecordId};

/// What each path names, and which files are pinned. Contracts see the names of each directory, by the
/// directory's number, and the files with a name.
#[derive(Drop)]
pub struct Names {
    dirs: Slab<Directory>,
    pins: Pins,
}

impl Model for Names {
    ghost use Rattle.tl_names.specs.Answers.{Tables, tables};
    ghost use Rattle.tl_names.specs.Tables.{IsTree};

    ghost Value = { Tables };

    ghost view = { λ names. tables names.dirs.slots names.pins };

    ghost invariant = { λ names. IsTree names.dirs.slots };
}

impl Names {
    /// `/` alone.
    pub fn new(alloc: Global) -> Result<Names, NoMemory>
        ensures names { IfOk result (λ names. StandsFor names.dirs no_names) }
        ensures pins { IfOk result (λ names. PinsStandFor names.pins no_names 0) }
    {
        let mut dirs = Slab::new(alloc);
        dirs.insert(Directory::new(alloc))?;
        Ok(Names {
            dirs,
            pins: Pins::new(alloc),
        })
    }

    /// What a path names.
    pub fn resolve(&self, path: &Path) -> Found
        ensures { (names : NameList) → StandsFor self.now.dirs names → result ≡ found (walk names path.now) }
    {
        match walk(&self.dirs, path) {
            Ok(Child::Dir(_)) => Found::Dir,
            Ok(Child::File { file, pinned }) => Found::File { file, pinned },
            Err(refusal) => refused(&refusal),
        }
    }

    /// Whether a file is pinned; `None` exactly where it has no name.
    pub fn pinned(&self, f: FileId) -> Option<bool>
        ensures { (names : NameList) (count : ℕ) → PinsStandFor self.now.pins names count → result ≡ pin_of names f }
    {
        self.pins.get(f)
    }

    /// Answers a command and makes its change. A put or a job that is accepted gets the number `next`,
    /// as many records as were made before. A refusal and want of memory change nothing.
    pub fn apply<T: Ticket>(
        &mut self,
        alloc: Global,
        command: &Command<T>,
        next: RecordId,
    ) -> Result<Reply, NoMemory>
        requires few { HasFewOutputs command.now }

        // Where the tables stand for names, the reply is the one that these give, and then the tables stand
        // for the changed names.
        ensures reply { (names : NameList) → StandsFor self.old.dirs names →
            IfOk result (λ reply. reply ≡ reply_to names next.0 command.now) }
        ensures names { (names : NameList) → StandsFor self.old.dirs names →
            IfOk result (λ reply. StandsFor self.new.dirs (names_after reply command.now names)) }
        ensures pins { (names : NameList) → StandsFor self.old.dirs names → PinsStandFor self.old.pins names next.0 →
            IfOk result (λ reply. PinsStandFor self.new.pins (names_after reply command.now names)
            (next.0 + length (record_made reply command.now names))) }

        // So they stand for the names of a history from its first call on.
        ensures history { (calls : HistoryOf T) (actor : Actor) → IsNamesOf self.old calls → next.0 ≡ length (records_of calls) →
            IfOk result (λ reply. (reply ≡ reply_after calls command.now)
            × IsNamesOf self.new (with_call actor (Call command.now reply) calls)) }

        ensures refused { IfOk result (λ reply. is_accepted reply ≡ false → self.new ≡ self.old) }
        ensures err { OnErr result (self.new ≡ self.old) }
    {
        answer(alloc, &mut self.dirs, &mut self.pins, command, next)
    }
}

// What a refused walk found.
fn refused(refusal: &Reply) -> Found
    ensures { result ≡ found (Err refusal.now) }
{
    match refusal {
        Reply::NotDir => Found::NotDir,
        _ => Found::NoSuch,
    }
}

// Answers a command and makes its change.
fn answer<T: Ticket>(
    alloc: Global,
    dirs: &mut Slab<Directory>,
    pins: &mut Pins,
    command: &Command<T>,
    next: RecordId,
) -> Result<Reply, NoMemory>
    requires tree { IsTree dirs.old.slots }
    requires few { HasFewOutputs command.now }
    ensures ok { IfOk result (λ reply. Answers (tables dirs.old.slots pins.old) (tables dirs.new.slots pins.new) next.0 (plain command.now) reply) }
    ensures err { OnErr result ((dirs.new.slots ≡ dirs.old.slots) × (pins.new ≡ pins.old)) }
{
    match command {
        Command::Put { path, .. } => put(alloc, dirs, pins, path, next),
        Command::Job {
            inputs,
            outputs,
            ..
        } => job(
            alloc,
            dirs,
            pins,
            inputs.as_slice(),
            outputs.as_slice(),
            next,
        ),
        Command::Read { path, .. } => Ok(read(dirs, path)),
        Command::Delete { path } => Ok(delete(dirs, pins, path)),
        Command::Mkdir { path } => mkdir(alloc, dirs, path),
        Command::Rename { from, to } => rename(alloc, dirs, from, to),
        Command::Pin { path } => set_pin(alloc, dirs, pins, path, true),
        Command::Unpin { path } => set_pin(alloc, dirs, pins, path, false),
        Command::List { path } => list(alloc, dirs, path),
        Command::Stat { path } => Ok(stat(dirs, path)),
        Command::Free { path } => Ok(free(dirs, path)),
    }
}
