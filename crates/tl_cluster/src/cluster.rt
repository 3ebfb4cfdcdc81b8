ghost use Rattle.std.specs.Prelude.{◌≡◌, ℕ, [], true, Some, is_some, length, IfOk, slice_get};
ghost use Rattle.std.specs.Option.{option_map};
ghost use Rattle.tl_types.specs.Block.{FileOutcome};
ghost use Rattle.tl_types.specs.Outcome.{digest_of, outcome_size};
ghost use Rattle.tl_types.specs.declared.file_id.FileId.{FileId};
ghost use Rattle.tl_types.specs.declared.worker_id.WorkerId.{WorkerId};
ghost use Rattle.tl_fleet.specs.Workers.{incarnation_of, new_workers};
ghost use Rattle.tl_model.specs.History.{calls_of};
ghost use Rattle.tl_model.specs.Residency.{SavedAs, is_resident, saved_as};
ghost use Rattle.tl_model.specs.Rules.{is_lawful, is_legal};
ghost use Rattle.tl_model.specs.Values.{value};
ghost use Rattle.tl_names.specs.Answers.{IsNamesOf};
ghost use Rattle.tl_cluster.specs.Losses.{incarnation};
ghost use Rattle.tl_cluster.specs.State.{held, past_of, told_of};

use crate::parts::Parts;
use std::alloc::Global;
use std::marker::Model;
use tl_fleet::Fleet;
use tl_io::Ticket;
use tl_ledger::Ledger;
use tl_model::{Header, Journal};
use tl_names::Names;
use tl_types::NoMemory;
use tl_vault::Vault;

/// The journal of all that was done, the blocks that are in the workers' memories, and what is
/// kept in the checkpoint store. Contracts see the header, the events with the newest first, and
/// the workers.
#[derive(Drop)]
pub struct Cluster<T: Ticket> {
    parts: Parts<T>,
}

impl<T: Ticket> Model for Cluster<T> {
    ghost use Rattle.std.specs.Coded.{codes};
    ghost use Rattle.tl_lang.specs.contracts.expr.Expr as expr;
    ghost use Rattle.tl_cluster.specs.Stands.{Stands};
    ghost use Rattle.tl_cluster.specs.State.{State};

    ghost Value = { State T };

    ghost coded = { Prim.hlevel (codes, expr.the_row.coded, T.code) };

    ghost view = { λ c. record {
      header = c.parts.header;
      events = c.parts.events;
      workers = c.parts.workers;
    } };

    ghost invariant = { λ c. Stands T.tells T.content c.parts };
}

impl<T: Ticket> Cluster<T> {
    /// A cluster of no events, whose workers' memories are empty.
    pub fn new(alloc: Global, header: Header) -> Result<Cluster<T>, NoMemory>
        ensures header { IfOk result (λ cluster. cluster.header ≡ header) }
        ensures events { IfOk result (λ cluster. cluster.events ≡ []) }
        ensures workers { IfOk result (λ cluster.
            cluster.workers ≡ new_workers header.workers header.capacity) }
    {
        let parts = Parts {
            ledger: Ledger::new(alloc, header)?,
            fleet: Fleet::new(alloc, header.workers, header.capacity)?,
            vault: Vault::new(alloc),
        };
        Ok(Cluster { parts })
    }

    /// What is true of every cluster: its journal is lawful, and legal where the bytes are told,
    /// so that no worker must drop a file; the files of the held blocks are the resident ones;
    /// where the bytes are told, each block is what its file holds, and each saved size and
    /// digest are those of what its file holds; a worker's incarnation is how often it was lost.
    pub fn stands(&self)
        ensures lawful { is_lawful self.now.header self.now.events ≡ true }
        ensures legal { T.tells ≡ true → is_legal self.now.header (told_of T.content self.now)
            ≡ true }
        ensures resident { (f : FileId) →
            is_some (held f self.now.workers) ≡ is_resident (past_of self.now) f }
        ensures of { (f : FileId) (block : FileOutcome) →
            held f self.now.workers ≡ Some block → block.file ≡ f }
        ensures values { (f : FileId) (block : FileOutcome) →
            held f self.now.workers ≡ Some block → T.tells ≡ true →
            block.outcome ≡ value (told_of T.content self.now) f }
        ensures saved { (f : FileId) (known : SavedAs) →
            saved_as (past_of self.now) f ≡ Some known → T.tells ≡ true →
            (known.size ≡ outcome_size (value (told_of T.content self.now) f))
            × (known.digest.0 ≡ digest_of (value (told_of T.content self.now) f)) }
        ensures losses { (worker : WorkerId) (n : ℕ) →
            option_map incarnation_of (slice_get self.now.workers worker.0) ≡ Some n →
            n ≡ incarnation self.now.events worker }
    {
        let _parts = &self.parts;
    }

    /// All that was done.
    pub fn journal(&self) -> &Journal<T>
        ensures header { result.now.header ≡ self.now.header }
        ensures events { result.now.events ≡ self.now.events }
    {
        self.parts.ledger.journal()
    }

    /// The names of the history, in tables: what each path names, and which files are pinned.
    pub fn names(&self) -> &Names
        ensures { IsNamesOf result.now (calls_of self.now.events) }
    {
        self.parts.ledger.names()
    }
}

mod calling;
mod collecting;
mod losing;
mod reading;
mod saves;
mod working;
