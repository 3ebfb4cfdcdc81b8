ghost use Rattle.std.specs.Prelude.{◌≡◌, ◌↔◌, ℕ, take, IfOk, IsTrue};
ghost use Rattle.tl_io.specs.Calls.{after_call, next_fails, no_calls};

use crate::calls::Calls;
use crate::depot::{Depot, DepotError};
use crate::mem_ticket::MemTicket;
use crate::sure_depot::SureDepot;
use std::alloc::Global;
use std::marker::Model;

/// A depot in memory whose listed calls fail. Its tickets hold the bytes, and tell.
#[derive(Debug, Drop)]
pub struct MemDepot {
    calls: Calls,
}

impl Model for MemDepot {
    ghost use Rattle.tl_io.specs.Calls.{CallLog};

    ghost Value = { CallLog };

    ghost view = { λ d. d.calls };
}

impl MemDepot {
    /// The calls of `save` and `load` with a number of `fails`, counted together from 1, raise the
    /// count of faults and fail, and no others do.
    pub fn new(fails: Vec<u32>) -> MemDepot
        ensures { result ≡ no_calls fails.items }
    {
        MemDepot {
            calls: Calls::new(fails),
        }
    }
}

impl Depot for MemDepot {
    type Ticket = MemTicket;

    ghost use Rattle.std.specs.Prelude.{◌≡◌};
    ghost use Rattle.tl_io.specs.Calls.{after_call};

    ghost faults = { λ d. d.faults };

    ghost saves = { λ old new. new ≡ after_call old };

    ghost loads = { λ old new. new ≡ after_call old };

    fn save(&mut self, alloc: Global, bytes: &[u8]) -> Result<MemTicket, DepotError>
        ensures fails { (result ≡ Err DepotError.Failed) ↔ IsTrue (next_fails self.old) }
        ensures log { self.new ≡ after_call self.old }
        ensures content { IfOk result (λ ticket. ticket ≡ bytes.now) }
    {
        if self.calls.next_fails() {
            return Err(DepotError::Failed);
        }
        SureDepot.save(alloc, bytes)
    }

    fn load(
        &mut self,
        alloc: Global,
        ticket: &MemTicket,
        limit: usize,
    ) -> Result<Vec<u8>, DepotError>
        ensures fails { (result ≡ Err DepotError.Failed) ↔ IsTrue (next_fails self.old) }
        ensures log { self.new ≡ after_call self.old }
        ensures content { IfOk result (λ bytes. bytes.items ≡ take limit ticket.now) }
    {
        if self.calls.next_fails() {
            return Err(DepotError::Failed);
        }
        SureDepot.load(alloc, ticket, limit)
    }
}
