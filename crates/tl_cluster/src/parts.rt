//! The parts of a cluster.

ghost use Rattle.std.specs.Prelude.{◌≡◌, length};

use std::marker::Model;
use tl_fleet::Fleet;
use tl_io::Ticket;
use tl_ledger::Ledger;
use tl_vault::Vault;

/// The parts of a cluster.
#[derive(Drop)]
pub(crate) struct Parts<T: Ticket> {
    pub(crate) ledger: Ledger<T>,
    pub(crate) fleet: Fleet,
    pub(crate) vault: Vault<T>,
}

impl<T: Ticket> Model for Parts<T> {
    ghost use Rattle.std.specs.Coded.{codes};
    ghost use Rattle.tl_lang.specs.contracts.expr.Expr as expr;
    ghost use Rattle.tl_cluster.specs.Stands.{PartsState};

    ghost Value = { PartsState T };

    ghost coded = { Prim.hlevel (codes, expr.the_row.coded, T.code) };

    ghost view = { λ p. record {
      header = p.ledger.header;
      events = p.ledger.events;
      spare = p.ledger.spare;
      workers = p.fleet;
      vault = p.vault;
    } };
}

impl<T: Ticket> Parts<T> {
    /// How many events there are.
    pub(crate) fn count(&self) -> u64
        ensures { result ≡ length self.now.events }
    {
        self.ledger.len()
    }
}

mod calling;
mod collecting;
mod losing;
mod reading;
mod room;
mod saves;
mod settling;
mod working;
