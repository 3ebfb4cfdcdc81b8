//! A log of numbered entries.
ghost use Rattle.std.specs.Prelude.{◌≡◌, [], ◌∷◌, OnOk, OnErr};

use std::alloc::{AllocError, Global};
use std::collections::LinkedList;
use tl_turn::Told;

/// Entries, each the number of the seat that made it and a value, the newest first.
#[derive(Drop)]
pub struct Book {
    entries: LinkedList<(u8, u32)>,
}

impl Told for Book {
    type Entry = (u8, u32);

    ghost maker = { λ entry. entry.0 };

    ghost log = { λ book. book.entries };

    fn entries(&self) -> u64 {
        self.entries.len() as u64
    }
}

impl Book {
    /// A book with no entry.
    pub fn new(alloc: Global) -> Book
        ensures { result.entries ≡ [] }
    {
        Book {
            entries: LinkedList::new(alloc),
        }
    }

    /// Adds an entry.
    pub fn add(&mut self, by: u8, value: u32) -> Result<(), AllocError>
        ensures ok { OnOk result (self.new.entries ≡ (by, value) ∷ self.old.entries) }
        ensures err { OnErr result (self.new.entries ≡ self.old.entries) }
    {
        self.entries.push_front((by, value))?;
        Ok(())
    }
}
