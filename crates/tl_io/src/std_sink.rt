ghost use Rattle.std.specs.Prelude.{◌≡◌, ◌≢◌, OnOk, OnErr};
ghost use Rattle.tl_io.specs.Counts.{more};
ghost use Rattle.tl_io.specs.Sink.{Writes};

use crate::sink::{Sink, SinkError};
use std::io::Write;

/// A sink over a writer. It tells what the writer tells, and counts each error of the writer, an
/// interrupted write too. A writer that takes nothing of a piece that is not empty counts as one.
#[derive(Debug, Drop)]
pub struct StdSink<W> {
    writer: W,
    faults: u64,
}

impl<W: Write> StdSink<W> {
    pub fn new(writer: W) -> StdSink<W>
        ensures tells { ⟦<StdSink<W> as Sink>⟧.held result ≡ W.contents writer }
        ensures faults { ⟦<StdSink<W> as Sink>⟧.faults result ≡ 0 }
    {
        StdSink { writer, faults: 0 }
    }
}

impl<W: Write> Sink for StdSink<W> {
    ghost held = { λ s. W.contents s.writer };

    ghost faults = { λ s. s.faults };

    fn write(&mut self, from: &[u8]) -> Result<usize, SinkError>
        ensures bytes { Writes (⟦<StdSink<W> as Sink>⟧.held self.old) (⟦<StdSink<W> as Sink>⟧.held self.new) result from.now }

        // The count rises at each error, and at no other call.
        ensures failed { OnErr result
            (⟦<StdSink<W> as Sink>⟧.faults self.new ≡ more (⟦<StdSink<W> as Sink>⟧.faults self.old) 1) }
        ensures ok { OnOk result
            (⟦<StdSink<W> as Sink>⟧.faults self.new ≡ ⟦<StdSink<W> as Sink>⟧.faults self.old) }
        ensures memory { result ≢ Err SinkError.NoMemory }
    {
        match self.writer.write(from) {
            Ok(n) if n > 0 || from.is_empty() => Ok(n),
            _ => {
                self.faults = self.faults.saturating_add(1);
                Err(SinkError::Failed)
            }
        }
    }
}
