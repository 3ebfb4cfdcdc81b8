ghost use Rattle.std.specs.Prelude.{◌≡◌, ◌≤◌, true, IfOk, length, take};

use crate::ticket::Ticket;
use std::alloc::Global;
use std::marker::Model;
use tl_types::{Items, NoMemory, Shared};

/// The ticket of a depot in memory: the bytes themselves, shared. It tells.
#[derive(Debug, Drop)]
pub struct MemTicket {
    bytes: Shared<Items<u8>>,
}

impl Model for MemTicket {
    ghost use Rattle.std.specs.Prelude.{ℕ, List};

    ghost Value = { List ℕ };

    ghost view = { λ t. t.bytes };
}

impl MemTicket {
    /// A ticket for a copy of `bytes`.
    pub fn new(alloc: Global, bytes: &[u8]) -> Result<MemTicket, NoMemory>
        ensures { IfOk result (λ ticket. ticket ≡ bytes.now) }
    {
        let items = Items::from_vec(bytes.to_vec(alloc)?);
        Ok(MemTicket {
            bytes: Shared::new(alloc, items)?,
        })
    }

    /// The bytes that the ticket is for.
    pub fn bytes(&self) -> &[u8]
        ensures { result.now ≡ self.now }
    {
        self.bytes.get().as_slice()
    }
}

impl Ticket for MemTicket {
    ghost tells = { true };

    ghost content = { λ t. t };

    fn copy(&self) -> Result<MemTicket, NoMemory> {
        Ok(MemTicket {
            bytes: self.bytes.try_clone()?,
        })
    }
}
