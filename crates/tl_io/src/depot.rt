ghost use Rattle.std.specs.Prelude.{◌≡◌, ◌≤◌, ℕ, take, IfOk, IsTrue};
ghost use Rattle.tl_io.specs.Counts.{Rises};

use crate::ticket::Ticket;
use std::alloc::{AllocError, Global};
use tl_types::NoMemory;

/// Why a depot neither kept nor gave bytes.
#[derive(Clone, Copy, Debug, PartialEq, Eq)]
pub enum DepotError {
    /// The depot met a fault.
    Failed,
    /// Memory ran out.
    NoMemory,
}

impl From<AllocError> for DepotError {
    ghost use Rattle.std.specs.Prelude.{◌≡◌};
    ghost use Rattle.tl_io.specs.declared.depot.DepotError.TheVariants.{NoMemory};

    ghost from_gives = { λ _ e. e ≡ NoMemory };

    fn from(_error: AllocError) -> DepotError {
        DepotError::NoMemory
    }
}

impl From<NoMemory> for DepotError {
    ghost use Rattle.std.specs.Prelude.{◌≡◌};
    ghost use Rattle.tl_io.specs.declared.depot.DepotError.TheVariants.{NoMemory as no_memory};

    ghost from_gives = { λ _ e. e ≡ no_memory };

    fn from(_error: NoMemory) -> DepotError {
        DepotError::NoMemory
    }
}

/// Where bytes are kept, for a ticket each. Any handle of a depot loads any handle's tickets.
pub trait Depot {
    type Ticket: Ticket;

    // The count of faults, which never falls.
    ghost faults: { Self → ℕ };

    // What one save makes of a depot, and what one load makes of it. Whoever knows no more of a depot
    // than this trait has the one fact by a call of `save` alone, and the other by one of `load`.
    ghost saves: { Self → Self → Type 0 };

    ghost loads: { Self → Self → Type 0 };

    /// Keeps `bytes`.
    fn save(&mut self, alloc: Global, bytes: &[u8]) -> Result<Self::Ticket, DepotError>
        ensures content { IfOk result (λ ticket.
            IsTrue Self.Ticket.tells → Self.Ticket.content ticket ≡ bytes.now) }
        ensures asked { saves self.old self.new }
        ensures failed { result ≡ Err DepotError.Failed → Rises (faults self.old) (faults self.new) }
        ensures never_falls { faults self.old ≤ faults self.new };

    /// The first `limit` of the bytes that were kept for `ticket`, or all where they are fewer.
    fn load(
        &mut self,
        alloc: Global,
        ticket: &Self::Ticket,
        limit: usize,
    ) -> Result<Vec<u8>, DepotError>
        ensures content { IfOk result (λ bytes.
            IsTrue Self.Ticket.tells → bytes.items ≡ take limit (Self.Ticket.content ticket.now)) }
        ensures asked { loads self.old self.new }
        ensures failed { result ≡ Err DepotError.Failed → Rises (faults self.old) (faults self.new) }
        ensures never_falls { faults self.old ≤ faults self.new };
}
