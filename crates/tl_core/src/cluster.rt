ghost use Rattle.std.specs.Prelude.{◌≡◌, [], true, is_some, IfOk};
ghost use Rattle.tl_types.specs.Block.{FileOutcome};
ghost use Rattle.tl_types.specs.Outcome.{digest_of, outcome_size};
ghost use Rattle.tl_types.specs.declared.file_id.FileId.{FileId};
ghost use Rattle.tl_model.specs.Past.{events_with};
ghost use Rattle.tl_model.specs.Residency.{SavedAs, is_resident, saved_as};
ghost use Rattle.tl_model.specs.Rules.{holds, is_lawful};
ghost use Rattle.tl_model.specs.Values.{value};
ghost use Rattle.tl_core.specs.Answers.{past_of};
ghost use Rattle.tl_core.specs.Residents.{held};
ghost use Rattle.tl_core.specs.State.{undropped_judge};

use crate::resident::Resident;
use std::alloc::Global;
use std::marker::Model;
use tl_io::Ticket;
use tl_ledger::Ledger;
use tl_model::{Header, Journal};
use tl_types::NoMemory;

// Enough room for one turn's events and for the ends of all that may be under way after it: sixteen
// actors have a read, a claim and a save each at most.
const ROOM: usize = 51;

/// The journal of all that was done, and the blocks that are in the workers' memories. Contracts see
/// the header, the events with the newest first, and the blocks.
#[derive(Drop)]
pub struct Cluster<T: Ticket> {
    journal: Ledger<T>,
    residents: Vec<Resident>,
}

impl<T: Ticket> Model for Cluster<T> {
    ghost use Rattle.std.specs.Coded.{codes};
    ghost use Rattle.tl_lang.specs.contracts.expr.Expr as expr;
    ghost use Rattle.tl_core.specs.State.{State, Stands};

    ghost Value = { State T };

    ghost coded = { Prim.hlevel (codes, expr.the_row.coded, T.code) };

    ghost view = { λ c. record { header = c.journal.header; events = c.journal.events; residents = c.residents.items } };

    ghost invariant = { λ c. Stands T.tells T.content c.journal.header c.journal.events c.residents.items c.journal.spare };
}

impl<T: Ticket> Cluster<T> {
    /// A cluster of no events, whose workers' memories are empty.
    pub fn new(alloc: Global, header: Header) -> Result<Cluster<T>, NoMemory>
        ensures header { IfOk result (λ cluster. cluster.header ≡ header) }
        ensures events { IfOk result (λ cluster. cluster.events ≡ []) }
        ensures residents { IfOk result (λ cluster. cluster.residents ≡ []) }
    {
        Ok(Cluster {
            journal: Ledger::new(alloc, header)?,
            residents: Vec::new(alloc),
        })
    }

    /// What is true of every cluster: its journal is lawful, and legal but for what is said of drops
    /// where the bytes are told; the files of the held blocks are the resident ones; and where the
    /// bytes are told, each block is what its file holds, and each saved size and digest are those of
    /// what its file holds.
    pub fn stands(&self)
        ensures lawful { is_lawful self.now.header self.now.events ≡ true }
        ensures told { T.tells ≡ true →
            holds (undropped_judge self.now.header) self.now.header (events_with T.content self.now.events) ≡ true }
        ensures resident { (f : FileId) → is_some (held f self.now.residents) ≡ is_resident (past_of self.now) f }
        ensures of { (f : FileId) (block : FileOutcome) → held f self.now.residents ≡ Some block → block.file ≡ f }
        ensures values { (f : FileId) (block : FileOutcome) → held f self.now.residents ≡ Some block → T.tells ≡ true →
            block.outcome ≡ value (events_with T.content self.now.events) f }
        ensures saved { (f : FileId) (known : SavedAs) → saved_as (past_of self.now) f ≡ Some known → T.tells ≡ true →
            (known.size ≡ outcome_size (value (events_with T.content self.now.events) f))
            × (known.digest.0 ≡ digest_of (value (events_with T.content self.now.events) f)) }
    {
        let _residents = &self.residents;
    }

    /// All that was done.
    pub fn journal(&self) -> &Journal<T>
        ensures header { result.now.header ≡ self.now.header }
        ensures events { result.now.events ≡ self.now.events }
    {
        self.journal.journal()
    }
}

mod calling;
mod losing;
mod reading;
mod working;
