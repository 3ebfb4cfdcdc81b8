ghost use Rattle.std.specs.Prelude.{◌≡◌, [], false, Ok};

use tl_io::Ticket;
use tl_types::NoMemory;

/// The ticket of a `FolderDepot`: which handle saved the bytes, and after how many others. It tells
/// nothing.
#[derive(Clone, Copy, Debug, PartialEq, Eq)]
pub struct FolderTicket {
    pub handle: u8,
    pub counter: u64,
}

impl Ticket for FolderTicket {
    ghost tells = { false };

    ghost content = { λ _. [] };

    fn copy(&self) -> Result<FolderTicket, NoMemory>
        ensures { result ≡ Ok self.now }
    {
        Ok(*self)
    }
}
