ghost use Rattle.std.specs.Prelude.{◌≡◌, ◌≤◌, string_bytes, take, vec_len, IfErr, IfOk, IsTrue, OnOk};
ghost use Rattle.tl_io.specs.Counts.{more, Rises};
ghost use Rattle.tl_depot.specs.Shelf.{after_error, file_path, new_shelf, next_ticket, with_save};

use crate::folder_ticket::FolderTicket;
use std::alloc::{AllocError, Global};
use std::fs::{self, File};
use std::io::{self, ErrorKind, Read, Write};
use std::marker::Model;
use std::rt::Files;
use tl_io::{Depot, DepotError, Ticket};

/// A depot over a folder: each save makes one file, named by the handle, `-` and the handle's count
/// of saves, in decimal. A file that stands there under that name, as from an earlier run in the
/// same folder, is overwritten. Two depots at work in one folder need two handles. Contracts see the
/// folder, the handle, and the counts of saves and of faults.
#[derive(Drop)]
pub struct FolderDepot<'a, R> {
    rt: &'a R,
    folder: String,
    handle: u8,
    saved: u64,
    faults: u64,
}

impl<'a, R> Model for FolderDepot<'a, R> {
    ghost use Rattle.std.specs.Prelude.{string_bytes};
    ghost use Rattle.tl_depot.specs.Shelf.{Shelf};

    ghost Value = { Shelf };

    ghost view = { λ d. record { folder = string_bytes d.folder; handle = d.handle; saved = d.saved; faults = d.faults } };
}

impl<'a, R: Files> FolderDepot<'a, R> {
    /// A depot that has saved nothing. The folder need not be there.
    pub fn new(rt: &'a R, folder: String, handle: u8) -> FolderDepot<'a, R>
        ensures shelf { result ≡ new_shelf (string_bytes folder) handle }
        ensures faults { ⟦<FolderDepot<'a, R> as Depot>⟧.faults result ≡ 0 }
    {
        FolderDepot {
            rt,
            folder,
            handle,
            saved: 0,
            faults: 0,
        }
    }
}

impl<'a, R: Files> Depot for FolderDepot<'a, R> {
    type Ticket = FolderTicket;

    ghost use Rattle.std.specs.Prelude.{◌≡◌, ◌≤◌};

    ghost faults = { λ d. d.faults };

    ghost saves = { λ old new. old.saved ≤ new.saved };

    ghost loads = { λ old new. new.saved ≡ old.saved };

    /// Makes the folder where it is missing. A file that can't be written is a fault. The ticket is the
    /// handle with the count of saves before, which stands still at its last value; a save that fails
    /// isn't counted.
    fn save(&mut self, alloc: Global, bytes: &[u8]) -> Result<FolderTicket, DepotError>
        ensures content { IfOk result (λ ticket. IsTrue ⟦<FolderTicket as Ticket>⟧.tells → ⟦<FolderTicket as Ticket>⟧.content ticket ≡ bytes.now) }
        ensures failed { result ≡ Err DepotError.Failed → Rises (⟦<FolderDepot<'a, R> as Depot>⟧.faults self.old) (⟦<FolderDepot<'a, R> as Depot>⟧.faults self.new) }
        ensures never_falls { ⟦<FolderDepot<'a, R> as Depot>⟧.faults self.old ≤ ⟦<FolderDepot<'a, R> as Depot>⟧.faults self.new }
        ensures fine { OnOk result (⟦<FolderDepot<'a, R> as Depot>⟧.faults self.new ≡ ⟦<FolderDepot<'a, R> as Depot>⟧.faults self.old) }
        ensures ticket { IfOk result (λ ticket. ticket ≡ next_ticket self.old) }
        ensures asked { self.old.saved ≤ self.new.saved }
        ensures counted { OnOk result (self.new ≡ with_save self.old) }
        ensures err { IfErr result (λ error. self.new ≡ after_error error self.old) }
    {
        let ticket = FolderTicket {
            handle: self.handle,
            counter: self.saved,
        };
        let path = path_of(alloc, self.folder.as_str(), ticket)?;
        if write_file(self.rt, self.folder.as_str(), path.as_str(), bytes).is_err() {
            self.faults = one_more(self.faults);
            return Err(DepotError::Failed);
        }
        self.saved = one_more(self.saved);
        Ok(ticket)
    }

    /// A file that can't be read is a fault.
    fn load(
        &mut self,
        alloc: Global,
        ticket: &FolderTicket,
        limit: usize,
    ) -> Result<Vec<u8>, DepotError>
        ensures content { IfOk result (λ bytes. IsTrue ⟦<FolderTicket as Ticket>⟧.tells → bytes.items ≡ take limit (⟦<FolderTicket as Ticket>⟧.content ticket.now)) }
        ensures failed { result ≡ Err DepotError.Failed → Rises (⟦<FolderDepot<'a, R> as Depot>⟧.faults self.old) (⟦<FolderDepot<'a, R> as Depot>⟧.faults self.new) }
        ensures never_falls { ⟦<FolderDepot<'a, R> as Depot>⟧.faults self.old ≤ ⟦<FolderDepot<'a, R> as Depot>⟧.faults self.new }
        ensures fine { OnOk result (⟦<FolderDepot<'a, R> as Depot>⟧.faults self.new ≡ ⟦<FolderDepot<'a, R> as Depot>⟧.faults self.old) }
        ensures asked { self.new.saved ≡ self.old.saved }
        ensures same { OnOk result (self.new ≡ self.old) }
        ensures err { IfErr result (λ error. self.new ≡ after_error error self.old) }
        ensures limit { IfOk result (λ bytes. vec_len bytes ≤ limit) }
    {
        let path = path_of(alloc, self.folder.as_str(), *ticket)?;
        let loaded = read_file(alloc, self.rt, path.as_str(), limit);
        if loaded == Err(DepotError::Failed) {
            self.faults = one_more(self.faults);
        }
        loaded
    }
}

// A count after one more save or fault. It stands still at its last value.
fn one_more(count: u64) -> u64
    ensures { result ≡ more count 1 }
{
    count.saturating_add(1)
}

// Where the file of a ticket is.
fn path_of(alloc: Global, folder: &str, ticket: FolderTicket) -> Result<String, AllocError>
    ensures { IfOk result (λ path. string_bytes path ≡ file_path folder.now ticket) }
{
    let handle = ticket.handle;
    let counter = ticket.counter;
    format!(in alloc; "{folder}/{handle}-{counter}")
}

// Makes the folder where it is missing, and the file of these bytes.
fn write_file<R: Files>(rt: &R, folder: &str, path: &str, bytes: &[u8]) -> io::Result<()> {
    fs::create_dir_all(rt, folder)?;
    File::create(rt, path)?.write_all(bytes)
}

// The first `limit` bytes of a file, or all where they are fewer.
fn read_file<R: Files>(
    alloc: Global,
    rt: &R,
    path: &str,
    limit: usize,
) -> Result<Vec<u8>, DepotError>
    ensures { IfOk result (λ bytes. vec_len bytes ≤ limit) }
{
    let Ok(file) = File::open(rt, path) else {
        return Err(DepotError::Failed);
    };
    read_front(alloc, file, limit)
}

// The first `limit` bytes that a reader gives, or all where they are fewer.
fn read_front<F: Read + Drop>(
    alloc: Global,
    mut reader: F,
    limit: usize,
) -> Result<Vec<u8>, DepotError>
    ensures { IfOk result (λ bytes. vec_len bytes ≤ limit) }
{
    let mut bytes = Vec::new(alloc);
    let mut piece = [0u8; 4096];
    'pieces: while bytes.len() < limit {
        let room = piece.len().min(limit - bytes.len());
        match reader.read(&mut piece[..room]) {
            Ok(0) => break,
            Ok(n) => bytes.extend_from_slice(&piece[..n])?,
            Err(_) => return Err(DepotError::Failed),
        }
    }
    Ok(bytes)
}
