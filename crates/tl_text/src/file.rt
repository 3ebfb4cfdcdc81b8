//! Files as `R.K`.

ghost use Rattle.std.specs.Prelude.{◌≡◌, ◌++◌, ◌∷◌, take, length, OnOk, OnErr};
ghost use Rattle.tl_text.specs.File.{file_text};

use crate::cut::cut_unless_ok;
use itoa::Buffer;
use std::alloc::AllocError;
use tl_types::{FileId, NoMemory};

// Appends the file, or some front of its spelling.
fn append_file(out: &mut Vec<u8>, file: FileId) -> Result<(), AllocError>
    ensures ok { OnOk result (out.new.items ≡ out.old.items ++ file_text file) }
    ensures err { OnErr result (take (length out.old.items) out.new.items ≡ out.old.items) }
{
    let mut buffer = Buffer::new();
    out.extend_from_slice(buffer.format(file.rec.0).as_bytes())?;
    out.push(b'.')?;
    out.extend_from_slice(buffer.format(file.out).as_bytes())?;
    Ok(())
}

/// Appends the number of the file's record, `.` and the number of its output, both in decimal. An
/// `Err` leaves `out` as it was.
pub fn print_file(out: &mut Vec<u8>, file: FileId) -> Result<(), NoMemory>
    ensures ok { OnOk result (out.new.items ≡ out.old.items ++ file_text file) }
    ensures err { OnErr result (out.new.items ≡ out.old.items) }
{
    let start = out.len();
    let printed = append_file(out, file);
    cut_unless_ok(out, start, printed)
}
