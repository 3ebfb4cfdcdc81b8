//! The main events of a save.

ghost use Rattle.std.specs.Prelude.{◌≡◌, ◌+◌, ◌<◌, ◌≤◌, true, Some, OnErr, OnOk, if◌then◌else◌};
ghost use Rattle.tl_types.specs.Same.{file_same};
ghost use Rattle.tl_types.specs.declared.file_id.FileId.{FileId as File};
ghost use Rattle.tl_fleet.specs.Workers.{held_count};
ghost use Rattle.tl_model.specs.Actors.{is_idle, open_save};
ghost use Rattle.tl_model.specs.Checkpoints.{next_save};
ghost use Rattle.tl_model.specs.Past.{events_with, without_tickets};
ghost use Rattle.tl_model.specs.Rules.{is_lawful};
ghost use Rattle.tl_model.specs.Values.{value};
ghost use Rattle.tl_vault.specs.Vault.{has_place};
ghost use Rattle.tl_cluster.specs.Kept.{IsSavedFor};
ghost use Rattle.tl_cluster.specs.Main.{with_begun, with_saved, with_unsaved};
ghost use Rattle.tl_cluster.specs.Saves.{saved_block};
ghost use Rattle.tl_cluster.specs.Stands.{Agrees, IsReady, Stands};

use crate::parts::Parts;
use tl_io::Ticket;
use tl_model::{Act, Event, Saved};
use tl_types::{Actor, Block, FileId, NoMemory};

impl<T: Ticket> Parts<T> {
    /// The file that is saved next, if there is one.
    pub(crate) fn next_save(&self) -> Option<FileId>
        requires { is_lawful self.now.header self.now.events ≡ true }
        ensures { result ≡ next_save self.now.header (without_tickets self.now.events) }
    {
        self.ledger.next_save()
    }

    /// Makes room for a turn, and the place of a file in the checkpoint store.
    pub(crate) fn ready_to_save(&mut self, file: FileId) -> Result<(), NoMemory>
        requires stands { Stands T.tells T.content self.old }
        ensures ready { IsReady T.tells T.content self.old self.new }
        ensures room { OnOk result (51 + held_count self.new.workers ≤ self.new.spare) }
        ensures place { OnOk result (has_place file self.new.vault ≡ true) }
    {
        self.reserve(0)?;
        self.vault.room(file)
    }

    /// Takes up the file that is saved next.
    pub(crate) fn begin_save(&mut self, actor: Actor, file: FileId)
        requires actor { actor.0 < 16 }
        requires stands { Stands T.tells T.content self.old }
        requires idle { is_idle (without_tickets self.old.events) actor ≡ true }
        requires next { next_save self.old.header (without_tickets self.old.events) ≡ Some file }
        requires place { has_place file self.old.vault ≡ true }
        requires room { 51 + held_count self.old.workers ≤ self.old.spare }
        ensures begun { self.new ≡ with_begun actor file self.old }
        ensures agrees { Agrees T.tells T.content self.new }
    {
        self.ledger.append(Event {
            actor,
            act: Act::Save(file),
        });
    }

    /// Gives the actor's save up.
    pub(crate) fn give_up_save(&mut self, actor: Actor, file: FileId)
        requires actor { actor.0 < 16 }
        requires stands { Stands T.tells T.content self.old }
        requires saving { open_save (without_tickets self.old.events) actor ≡ Some file }
        ensures unsaved { self.new ≡ with_unsaved actor file self.old }
        ensures agrees { Agrees T.tells T.content self.new }
    {
        self.ledger.append(Event {
            actor,
            act: Act::Unsave(file),
        });
    }

    /// Ends the actor's save of a block with what is kept of it.
    pub(crate) fn end_save(&mut self, actor: Actor, block: &Block, saved: Saved<T>)
        requires actor { actor.0 < 16 }
        requires stands { Stands T.tells T.content self.old }
        requires saving { open_save (without_tickets self.old.events) actor ≡ Some block.now.file }
        requires kept { IsSavedFor T.tells T.content
            (saved_block block.now) block.now.outcome saved }
        requires value { T.tells ≡ true →
            block.now.outcome ≡ value (events_with T.content self.old.events) block.now.file }
        ensures saved { self.new ≡ with_saved actor block.now self.new.vault self.old }
        ensures agrees { Agrees T.tells T.content self.new }
    {
        let file = block.file();
        let size = block.outcome().size() as u64;
        self.vault.insert(file, saved);
        self.ledger.append(Event {
            actor,
            act: Act::Saved(file, size, block.digest()),
        });
    }
}
