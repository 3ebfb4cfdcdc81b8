//! Writing a whole text.

ghost use Rattle.std.specs.Prelude.{◌≡◌, ◌≤◌, ℕ, List, length, OnOk, OnErr, IsErrOf};
ghost use Rattle.std.specs.Io.KnownBytes.{Appends};
ghost use Rattle.tl_io.specs.Counts.{Rises};
ghost use Rattle.tl_run.specs.Streams.{WritesFront};

use tl_io::{Sink, SinkError};

/// Writes the text whole, or at an error a front of it.
pub(crate) fn write_all<O: Sink>(output: &mut O, text: &[u8]) -> Result<(), SinkError>
    ensures written { OnOk result (Appends (O.held output.old) (O.held output.new) text.now) }
    ensures front { OnErr result (WritesFront (O.held output.old) (O.held output.new) text.now) }
    ensures failed { IsErrOf result SinkError.Failed → Rises (O.faults output.old) (O.faults output.new) }
{
    let mut rest = text;
    while !rest.is_empty() {
        let n = output.write(rest)?;
        rest = rest.split_at(n).1;
    }
    Ok(())
}
