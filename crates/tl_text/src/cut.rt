//! What a printer that failed has written is taken away again.

ghost use Rattle.std.specs.Prelude.{◌≡◌, take, IsOk, IsErr, OnOk, OnErr};

use std::alloc::AllocError;
use tl_types::NoMemory;

// Cuts `out` to its first `len` bytes where printing failed.
pub(crate) fn cut_unless_ok(
    out: &mut Vec<u8>,
    len: usize,
    printed: Result<(), AllocError>,
) -> Result<(), NoMemory>
    ensures ok { OnOk result (IsOk printed × (out.new.items ≡ out.old.items)) }
    ensures err { OnErr result (IsErr printed × (out.new.items ≡ take len out.old.items)) }
{
    match printed {
        Ok(()) => Ok(()),
        Err(_) => {
            out.truncate(len);
            Err(NoMemory)
        }
    }
}
