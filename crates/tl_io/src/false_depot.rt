ghost use Rattle.std.specs.Prelude.{◌≡◌, ◌≢◌, ℕ, [], false, IfOk, IsOk};

use crate::depot::{Depot, DepotError};
use crate::ticket::Ticket;
use std::alloc::Global;
use std::marker::Model;
use tl_types::NoMemory;

/// The ticket of a `FalseDepot`. It tells nothing.
#[derive(Clone, Copy, Debug)]
pub struct FalseTicket;

impl Ticket for FalseTicket {
    ghost tells = { false };

    ghost content = { λ _. [] };

    fn copy(&self) -> Result<FalseTicket, NoMemory>
        ensures { IsOk result }
    {
        Ok(FalseTicket)
    }
}

/// A depot that never fails, keeps nothing and answers each load with the same bytes. It tells
/// nothing.
#[derive(Debug, Drop)]
pub struct FalseDepot {
    answer: Vec<u8>,
}

impl Model for FalseDepot {
    ghost use Rattle.std.specs.Prelude.{ℕ, List};

    ghost Value = { List ℕ };

    ghost view = { λ d. d.answer.items };
}

impl FalseDepot {
    /// A depot that answers each load with the whole of `answer`.
    pub fn new(answer: Vec<u8>) -> FalseDepot
        ensures { result ≡ answer.items }
    {
        FalseDepot { answer }
    }
}

impl Depot for FalseDepot {
    type Ticket = FalseTicket;

    ghost use Rattle.std.specs.Prelude.{◌≡◌};

    ghost faults = { λ _. 0 };

    ghost saves = { λ old new. new ≡ old };

    ghost loads = { λ old new. new ≡ old };

    fn save(&mut self, _alloc: Global, _bytes: &[u8]) -> Result<FalseTicket, DepotError>
        ensures saved { IsOk result }
        ensures kept { self.new ≡ self.old }
    {
        Ok(FalseTicket)
    }

    /// The whole answer, whatever the limit.
    fn load(
        &mut self,
        alloc: Global,
        _ticket: &FalseTicket,
        _limit: usize,
    ) -> Result<Vec<u8>, DepotError>
        ensures failed { result ≢ Err DepotError.Failed }
        ensures answer { IfOk result (λ bytes. bytes.items ≡ self.old) }
        ensures kept { self.new ≡ self.old }
    {
        Ok(self.answer.as_slice().to_vec(alloc)?)
    }
}
