ghost use Rattle.std.specs.Prelude.{◌≡◌, ℕ, take, IfOk};

use crate::depot::{Depot, DepotError};
use crate::mem_ticket::MemTicket;
use std::alloc::Global;

/// A depot in memory that never fails. Its tickets hold the bytes, and tell.
#[derive(Clone, Copy, Debug)]
pub struct SureDepot;

impl SureDepot {
    pub fn new() -> SureDepot {
        SureDepot
    }
}

impl Depot for SureDepot {
    type Ticket = MemTicket;

    ghost use Rattle.std.specs.Prelude.{◌≡◌};

    ghost faults = { λ _. 0 };

    ghost saves = { λ old new. new ≡ old };

    ghost loads = { λ old new. new ≡ old };

    fn save(&mut self, alloc: Global, bytes: &[u8]) -> Result<MemTicket, DepotError> {
        Ok(MemTicket::new(alloc, bytes)?)
    }

    fn load(
        &mut self,
        alloc: Global,
        ticket: &MemTicket,
        limit: usize,
    ) -> Result<Vec<u8>, DepotError> {
        let bytes = ticket.bytes();
        let n = bytes.len().min(limit);
        Ok(bytes[..n].to_vec(alloc)?)
    }
}
