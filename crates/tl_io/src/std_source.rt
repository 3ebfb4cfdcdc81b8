ghost use Rattle.std.specs.Prelude.{◌≡◌, ◌<◌, length, OnOk, OnErr};
ghost use Rattle.tl_io.specs.Counts.{more};
ghost use Rattle.tl_io.specs.Source.{CountsGiven, Reads};

use crate::source::{Failed, Source};
use std::io::Read;

/// A source over a reader. It tells what the reader tells, and counts each error of the reader, an
/// interrupted read too.
#[derive(Debug, Drop)]
pub struct StdSource<R> {
    reader: R,
    given: u64,
    faults: u64,
}

impl<R: Read> StdSource<R> {
    pub fn new(reader: R) -> StdSource<R>
        ensures tells { ⟦<StdSource<R> as Source>⟧.left result ≡ R.remaining reader }
        ensures given { ⟦<StdSource<R> as Source>⟧.given result ≡ 0 }
        ensures faults { ⟦<StdSource<R> as Source>⟧.faults result ≡ 0 }
    {
        StdSource {
            reader,
            given: 0,
            faults: 0,
        }
    }
}

impl<R: Read> Source for StdSource<R> {
    ghost left = { λ s. R.remaining s.reader };

    ghost given = { λ s. s.given };

    ghost faults = { λ s. s.faults };

    fn read(&mut self, into: &mut [u8]) -> Result<usize, Failed>
        requires { 0 < length into.old }
        ensures bytes { Reads
            (⟦<StdSource<R> as Source>⟧.left self.old) (⟦<StdSource<R> as Source>⟧.left self.new) result into.new }
        ensures given { CountsGiven
            (⟦<StdSource<R> as Source>⟧.given self.old) (⟦<StdSource<R> as Source>⟧.given self.new) result }

        // The count rises at each error, and at no other call.
        ensures failed { OnErr result
            (⟦<StdSource<R> as Source>⟧.faults self.new ≡ more (⟦<StdSource<R> as Source>⟧.faults self.old) 1) }
        ensures ok { OnOk result
            (⟦<StdSource<R> as Source>⟧.faults self.new ≡ ⟦<StdSource<R> as Source>⟧.faults self.old) }
    {
        match self.reader.read(into) {
            Ok(n) => {
                self.given = self.given.saturating_add(n as u64);
                Ok(n)
            }
            Err(_) => {
                self.faults = self.faults.saturating_add(1);
                Err(Failed)
            }
        }
    }
}
