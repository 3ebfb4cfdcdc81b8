ghost use Rattle.std.specs.Prelude.{◌≡◌, ◌+◌, ◌<◌, ◌≤◌, ◌^◌, ◌-◌, ◌==◌, ◌&&◌, true, false, is_none, [], Some, length, slice_get, is_some, IfSome, IfOk, IfErr, OnOk, OnErr};
ghost use Rattle.std.specs.List.{AllByRecursion};
ghost use Rattle.std.specs.Option.{option_map};
ghost use Rattle.tl_fleet.specs.Workers.{IsOnce, new_workers, is_resident, found, found_block, worker_found, installed, all_touched, all_without, lost, first_to_drop, dropped, held_count, incarnation_of, changed_at, with_blocks, put_front, emptied, to_drop};
ghost use Rattle.tl_fleet.specs.Order.{Ascends, IsNumbered, IsOfFile, ExceptsBy, StandsInOrder, due, sight_of};
ghost use Rattle.tl_fleet.specs.Events.{after_load, after_done, after_served, after_free, after_drop, after_loss, after_claim, among, files_of, installed_each, touched_each};
ghost use Rattle.tl_types.specs.declared.actor.Actor.{Actor as By};
ghost use Rattle.tl_types.specs.declared.digest.Digest.{Digest as Sum};
ghost use Rattle.tl_types.specs.declared.record_id.RecordId.{RecordId};
ghost use Rattle.tl_model.specs.Eviction.{Sizes};
ghost use Rattle.tl_model.specs.History.{is_output};
ghost use Rattle.tl_model.specs.Past.{Past};
ghost use Rattle.tl_model.specs.Residency.{place, reads_of_claim};
ghost use Rattle.tl_model.specs.declared.header.Header.{Header};
ghost use Rattle.tl_store.specs.Contents.{block_size, without};

use crate::installs::install_copies;
use crate::worker::Worker;
use std::alloc::Global;
use std::marker::Model;
use tl_store::{Excepted, Store};
use tl_types::{Block, FileId, NoMemory, Shared, WorkerId};

/// The memory of all workers. Contracts see the list of the workers, each with its incarnation and
/// the blocks in its memory, the most recently used first. A fleet stands in order for a past where each
/// worker has the blocks of just the files that the past has there, the soonest to be evicted last; the
/// clauses `stands` say what that gives, and for which event it stands so after a call.
#[derive(Drop)]
pub struct Fleet {
    workers: Vec<Worker>,
}

impl Model for Fleet {
    ghost use Rattle.tl_fleet.specs.Workers.{Workers, IsFleet};

    ghost Value = { Workers };

    ghost view = { λ fleet. fleet.workers.items };

    ghost invariant = { λ fleet. IsFleet fleet.workers.items };
}

impl Fleet {
    /// Empty workers of incarnation 0, each of which may have `capacity` bytes.
    pub fn new(alloc: Global, workers: u8, capacity: u64) -> Result<Fleet, NoMemory>
        ensures new { IfOk result (λ fleet. fleet ≡ new_workers workers capacity) }
        ensures stands { IfOk result (λ fleet. (sizes : Sizes) (header : Header) → header.workers ≡ workers → header.capacity ≡ capacity →
            StandsInOrder sizes header [] fleet) }
    {
        let mut fleet = Vec::new(alloc);
        for _ in 0..workers {
            fleet.push(Worker {
                store: Store::new(alloc, capacity)?,
                incarnation: 0,
            })?;
        }
        Ok(Fleet { workers: fleet })
    }

    /// The number of workers.
    pub fn len(&self) -> usize
        ensures workers { result ≡ length self.now }
        ensures bound { result < 256 }
    {
        self.workers.len()
    }

    /// Whether there are no workers.
    pub fn is_empty(&self) -> bool
        ensures { result ≡ (length self.now == 0) }
    {
        self.workers.is_empty()
    }

    /// How many blocks are in the workers' memories together. Each is of another file.
    pub fn held(&self) -> u128
        ensures held { result ≡ held_count self.now }
        ensures once { IsOnce self.now }
    {
        held_in(&self.workers)
    }

    /// Puts a block of a file that is on no worker in front at `w`, as a load brings it; its size is that
    /// of its file, which a record makes. `Err` is want of memory; it hands the block back, and nothing
    /// changed.
    pub fn install(&mut self, w: WorkerId, block: Shared<Block>) -> Result<(), Shared<Block>>
        requires worker { w.0 < length self.old }
        requires absent { is_resident block.file self.old ≡ false }
        ensures ok { OnOk result (self.new ≡ installed w block self.old) }
        ensures err { OnErr result (self.new ≡ self.old) }
        ensures back { IfErr result (λ back. back ≡ block) }
        ensures stands { (sizes : Sizes) (header : Header) (past : Past) (actor : By) → StandsInOrder sizes header past self.old →
            IsOfFile sizes (sight_of past) block → OnOk result (StandsInOrder sizes header (after_load actor w block.file past) self.new) }
    {
        install_at(&mut self.workers, w.0 as usize, block)
    }

    /// Puts blocks in front at `w`, one after another, so that the last is in front: those of ascending
    /// files that are on no worker, as a done job brings them. `Err` is want of memory; it hands the
    /// blocks back, and nothing changed.
    pub fn install_all(
        &mut self,
        w: WorkerId,
        blocks: Vec<Shared<Block>>,
    ) -> Result<(), Vec<Shared<Block>>>
        requires worker { w.0 < length self.old }
        requires absent { AllByRecursion (λ block. is_resident block.file self.old ≡ false) blocks.items }
        requires ascending { Ascends (files_of blocks.items) }
        ensures ok { OnOk result (self.new ≡ installed_each w blocks.items self.old) }
        ensures err { OnErr result (self.new ≡ self.old) }
        ensures back { IfErr result (λ back. back ≡ blocks) }
        ensures stands { (sizes : Sizes) (header : Header) (past : Past) (actor : By) (made : RecordId) → StandsInOrder sizes header past self.old →
            ((f : FileId) → among f (files_of blocks.items) ≡ (is_output past f made && is_none (place past f))) →
            AllByRecursion (λ block. block_size block ≡ sizes block.file) blocks.items →
            OnOk result (StandsInOrder sizes header (after_done actor w made past) self.new) }
    {
        match install_copies(&mut self.workers, w, &blocks) {
            Ok(()) => Ok(()),
            Err(_) => Err(blocks),
        }
    }

    /// The worker that has a file, and the block; `None` where no worker has it. The order stays.
    pub fn find(&self, f: FileId) -> Option<(WorkerId, &Shared<Block>)>
        ensures found { option_map found_block result ≡ found f self.now }
        ensures once { IsOnce self.now }
        ensures stands { (sizes : Sizes) (header : Header) (past : Past) → StandsInOrder sizes header past self.now →
            option_map worker_found (option_map found_block result) ≡ place past f }
    {
        find_in(&self.workers, f)
    }

    /// Whether a worker has a file.
    pub fn is_resident(&self, f: FileId) -> bool
        ensures resident { result ≡ is_resident f self.now }
        ensures stands { (sizes : Sizes) (header : Header) (past : Past) → StandsInOrder sizes header past self.now →
            result ≡ is_some (place past f) }
    {
        resident_in(&self.workers, f)
    }

    /// Makes a file the most recently used of its worker. A file on no worker changes nothing.
    pub fn touch(&mut self, f: FileId)
        ensures touched { self.new ≡ all_touched f self.old }
        ensures stands { (sizes : Sizes) (header : Header) (past : Past) (actor : By) (digest : Sum) → StandsInOrder sizes header past self.old →
            StandsInOrder sizes header (after_served actor f digest past) self.new }
    {
        touch_all(&mut self.workers, f);
    }

    /// Makes each of these files in turn the most recently used of its worker, so that the last is in
    /// front. A file on no worker changes nothing.
    pub fn touch_each(&mut self, files: &[FileId])
        ensures touched { self.new ≡ touched_each files.now self.old }
        ensures stands { (sizes : Sizes) (header : Header) (past : Past) (actor : By) (w : WorkerId) (made : RecordId) → StandsInOrder sizes header past self.old →
            Ascends files.now → ((f : FileId) → is_some (place past f) ≡ true → among f files.now ≡ reads_of_claim past f made) →
            StandsInOrder sizes header (after_claim actor w made past) self.new }
    {
        touch_files(&mut self.workers, files);
    }

    /// Takes a file out of its worker. A file on no worker changes nothing.
    pub fn free(&mut self, f: FileId)
        ensures free { self.new ≡ all_without f self.old }
        ensures stands { (sizes : Sizes) (header : Header) (past : Past) (actor : By) → StandsInOrder sizes header past self.old →
            StandsInOrder sizes header (after_free actor f past) self.new }
    {
        free_all(&mut self.workers, f);
    }

    /// Empties a worker and raises its incarnation by one.
    pub fn lose(&mut self, w: WorkerId)
        requires worker { w.0 < length self.old }
        requires incarnation { IfSome (slice_get self.old w.0) (λ worker. worker.incarnation < 2 ^ 64 - 1) }
        ensures lost { self.new ≡ lost w self.old }
        ensures stands { (sizes : Sizes) (header : Header) (past : Past) (actor : By) → StandsInOrder sizes header past self.old →
            StandsInOrder sizes header (after_loss actor w past) self.new }
    {
        lose_at(&mut self.workers, w.0 as usize);
    }

    /// How often a worker was lost.
    pub fn incarnation(&self, w: WorkerId) -> u64
        requires worker { w.0 < length self.now }
        ensures { option_map incarnation_of (slice_get self.now w.0) ≡ Some result }
    {
        self.workers[w.0 as usize].incarnation
    }

    /// Drops the least recently used file that is not excepted from the least worker that is over
    /// its capacity and has such a file. `None` where there is no such worker. Where the fleet stands in
    /// order and just the pinned and the wanted files are excepted, it is what the past says is `due`.
    pub fn settle_one<X: Excepted>(&mut self, x: &X) -> Option<(WorkerId, FileId)>
        ensures first { result ≡ first_to_drop (X.excepted x.now) self.old }
        ensures dropped { self.new ≡ dropped result self.old }
        ensures due { (sizes : Sizes) (header : Header) (past : Past) → IsNumbered past → ExceptsBy past (X.excepted x.now) →
            StandsInOrder sizes header past self.old → result ≡ due sizes header past }
        ensures stands { (sizes : Sizes) (header : Header) (past : Past) (actor : By) → StandsInOrder sizes header past self.old →
            IfSome result (λ drop. StandsInOrder sizes header (after_drop actor drop past) self.new) }
    {
        let (w, f) = find_drop(&self.workers, x)?;
        remove_at(&mut self.workers, w.0 as usize, f);
        Some((w, f))
    }
}

// Puts a block in front at a worker.
pub(crate) fn install_at(
    workers: &mut [Worker],
    w: usize,
    block: Shared<Block>,
) -> Result<(), Shared<Block>>
    requires worker { w < length workers.old }
    requires absent { is_resident block.file workers.old ≡ false }
    ensures ok { OnOk result (workers.new ≡ changed_at w (with_blocks (put_front block)) workers.old) }
    ensures err { OnErr result (workers.new ≡ workers.old) }
    ensures back { IfErr result (λ back. back ≡ block) }
{
    let worker = &mut workers[w];
    worker.store.put(block)
}

// Empties a worker and raises its incarnation by one.
fn lose_at(workers: &mut [Worker], w: usize)
    requires worker { w < length workers.old }
    requires incarnation { IfSome (slice_get workers.old w) (λ worker. worker.incarnation < 2 ^ 64 - 1) }
    ensures { workers.new ≡ changed_at w emptied workers.old }
{
    empty(&mut workers[w]);
}

// Takes all blocks from a worker, and raises its incarnation by one.
fn empty(worker: &mut Worker)
    requires { worker.old.incarnation < 2 ^ 64 - 1 }
    ensures { worker.new ≡ emptied worker.old }
{
    worker.store.clear();
    worker.incarnation += 1;
}

// Takes a file out of a worker.
pub(crate) fn remove_at(workers: &mut [Worker], w: usize, f: FileId)
    requires worker { w < length workers.old }
    ensures { workers.new ≡ changed_at w (with_blocks (without f)) workers.old }
{
    let worker = &mut workers[w];
    worker.store.remove(f);
}

// Makes a file the most recently used of each worker that has it.
fn touch_all(workers: &mut [Worker], f: FileId)
    ensures { workers.new ≡ all_touched f workers.old }
{
    for worker in workers.iter_mut() {
        worker.store.touch(f);
    }
}

// Makes each of the files in turn the most recently used of each worker that has it.
fn touch_files(workers: &mut [Worker], files: &[FileId])
    ensures { workers.new ≡ touched_each files.now workers.old }
{
    for f in files {
        touch_all(workers, *f);
    }
}

// Takes a file out of each worker.
fn free_all(workers: &mut [Worker], f: FileId)
    ensures { workers.new ≡ all_without f workers.old }
{
    for worker in workers.iter_mut() {
        worker.store.remove(f);
    }
}

// How many blocks are in the workers' memories together.
fn held_in(workers: &[Worker]) -> u128
    requires few { length workers.now < 256 }
    ensures { result ≡ held_count workers.now }
{
    let mut held = 0;
    for worker in workers {
        held += worker.store.len() as u128;
    }
    held
}

// Whether a worker has a file.
fn resident_in(workers: &[Worker], f: FileId) -> bool
    ensures { result ≡ is_resident f workers.now }
{
    workers.iter().any(|worker| worker.store.contains(f))
}

// The least worker that has a file, and the block.
fn find_in(workers: &[Worker], f: FileId) -> Option<(WorkerId, &Shared<Block>)>
    requires few { length workers.now < 256 }
    ensures { option_map found_block result ≡ found f workers.now }
{
    for (n, worker) in workers.iter().enumerate() {
        if let Some(block) = worker.store.get(f) {
            return Some((WorkerId(n as u8), block));
        }
    }
    None
}

// The least worker that must drop a file, and the file.
fn find_drop<X: Excepted>(workers: &[Worker], x: &X) -> Option<(WorkerId, FileId)>
    requires few { length workers.now < 256 }
    ensures first { result ≡ first_to_drop (X.excepted x.now) workers.now }
    ensures within { IfSome result (λ drop. drop.0.0 < length workers.now) }
{
    for (n, worker) in workers.iter().enumerate() {
        if let Some(f) = worker_drop(worker, x) {
            return Some((WorkerId(n as u8), f));
        }
    }
    None
}

// The file that a worker must drop.
fn worker_drop<X: Excepted>(worker: &Worker, x: &X) -> Option<FileId>
    ensures { result ≡ to_drop (X.excepted x.now) worker.now }
{
    if worker.store.used() > worker.store.capacity() as u128 {
        worker.store.victim(x)
    } else {
        None
    }
}
