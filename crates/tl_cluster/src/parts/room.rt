//! Room for a turn.

ghost use Rattle.std.specs.Prelude.{◌≡◌, ◌+◌, IfSome, OnErr, OnOk};
ghost use Rattle.tl_cluster.specs.Stands.{IsRoomier};

use crate::parts::Parts;
use tl_io::Ticket;
use tl_types::NoMemory;

// Three events of a turn, and the ends of all that may be under way after it: sixteen actors have a
// read, a claim and a save each at most.
const ROOM: usize = 51;

impl<T: Ticket> Parts<T> {
    /// Makes room for a turn, after which so many blocks more may be held.
    pub(crate) fn reserve(&mut self, more: usize) -> Result<(), NoMemory>
        ensures ok { OnOk result (IsRoomier more self.old self.new) }
        ensures err { OnErr result (self.new ≡ self.old) }
    {
        let count = room_for(self.fleet.held(), more).ok_or(NoMemory)?;
        self.ledger.reserve(count)
    }
}

// The room for a turn, after which so many blocks more than these may be held.
fn room_for(held: u128, more: usize) -> Option<usize>
    ensures { IfSome result (λ count. count ≡ 51 + held + more) }
{
    usize::try_from(held)
        .ok()?
        .checked_add(more)?
        .checked_add(ROOM)
}
