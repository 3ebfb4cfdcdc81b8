ghost use Rattle.std.specs.Prelude.{◌≡◌, false, if◌then◌else◌, not, is_some, [], None, IfOk, OnOk, OnErr};
ghost use Rattle.std.specs.Map.{remove_entry};
ghost use Rattle.std.specs.BTreeMap.{insert_entry};
ghost use Rattle.tl_types.specs.Same.{file_cmp, file_same};
ghost use Rattle.tl_names.specs.Pins.{pin_in};

use std::alloc::Global;
use std::collections::BTreeMap;
use std::marker::Model;
use tl_types::{FileId, NoMemory};

/// Which files have a name, each with whether it is pinned. Contracts see them in their order.
#[derive(Drop)]
pub struct Pins {
    files: BTreeMap<FileId, bool>,
}

impl Model for Pins {
    ghost use Rattle.tl_names.specs.Pins.{PinList};

    ghost Value = { PinList };

    ghost view = { λ pins. pins.files.entries };
}

impl Pins {
    /// No files.
    pub fn new(alloc: Global) -> Pins
        ensures { result ≡ [] }
    {
        Pins {
            files: BTreeMap::new(alloc),
        }
    }

    /// Whether a file is pinned; `None` where it has no name.
    pub fn get(&self, f: FileId) -> Option<bool>
        ensures { result ≡ pin_in self.now f }
    {
        self.files.get(&f).copied()
    }

    /// Adds a file, unpinned. `false` where it is there already; then nothing changes.
    pub fn add(&mut self, f: FileId) -> Result<bool, NoMemory>
        ensures new { IfOk result (λ added. added ≡ not (is_some (pin_in self.old f))) }
        ensures ok { IfOk result (λ added. self.new ≡ (if added then insert_entry file_cmp self.old f false else self.old)) }
        ensures err { OnErr result (self.new ≡ self.old) }
    {
        if self.files.contains_key(&f) {
            return Ok(false);
        }
        self.files.insert(f, false)?;
        Ok(true)
    }

    /// Sets or clears a file's pin.
    pub fn set(&mut self, f: FileId, pinned: bool) -> Result<(), NoMemory>
        ensures ok { OnOk result (self.new ≡ insert_entry file_cmp self.old f pinned) }
        ensures err { OnErr result (self.new ≡ self.old) }
    {
        self.files.insert(f, pinned)?;
        Ok(())
    }

    /// Takes a file away.
    pub fn remove(&mut self, f: FileId)
        ensures entries { self.new ≡ remove_entry (file_same f) self.old }
        ensures gone { pin_in self.new f ≡ None }
    {
        let _distinct = self.files.len();
        self.files.remove(&f);
    }
}
