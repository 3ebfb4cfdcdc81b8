//! Touches and puts in one worker's memory.
ghost use Rattle.std.specs.Prelude.{◌≡◌, ◌≤◌, IsTrue, false, reverse, vec_len, IfOk};
ghost use Rattle.tl_store.specs.Contents.{contents};
ghost use Rattle.tl_bench.specs.Blocks.{renewed, renewed_by, touched_by};

use crate::pace::Pace;
use std::alloc::{AllocError, Global};
use std::io;
use std::rt::Clock;
use std::time::Instant;
use tl_store::{Excepted, Store};
use tl_types::{Block, Bytes, FileId, NoMemory, Outcome, RecordId, Shared};

/// No file.
struct Nothing;

impl Excepted for Nothing {
    ghost use Rattle.std.specs.Prelude.{false};

    ghost excepted = { λ _ _. false };

    fn holds(&self, _f: FileId) -> bool {
        false
    }
}

/// Touches so many files of so many in a worker's memory, in no order, and then takes out the least recently used file
/// and puts it in again, as often. Prints how many were put in and the bytes that are there; on standard error how long
/// each took.
pub(crate) fn measure(
    rt: &(impl Clock + Print + Eprint),
    alloc: Global,
    blocks: u32,
    times: u32,
) -> io::Result<()>
    requires { 1 ≤ blocks }
{
    let mut store = store_of(alloc, blocks).map_err(|_| AllocError)?;
    let files = files_of(alloc, blocks, times)?;
    let start = Instant::now(rt)?;
    touch_all(&mut store, files.as_slice());
    let touching = Pace {
        count: u64::from(times),
        time: start.elapsed(rt)?,
    };
    let start = Instant::now(rt)?;
    let puts = renew_often(&mut store, times);
    let putting = Pace {
        count: u64::from(puts),
        time: start.elapsed(rt)?,
    };
    let bytes = store.used();
    println!(rt; "blocks {blocks} {times} puts {puts} bytes {bytes}")?;
    eprintln!(rt; "  touches: {touching}")?;
    eprintln!(rt; "  puts: {putting}")
}

// A worker's memory with so many blocks of a byte.
fn store_of(alloc: Global, blocks: u32) -> Result<Store, NoMemory> {
    let mut store = Store::new(alloc, u64::from(blocks))?;
    for k in 0..blocks {
        let block = block_of(alloc, k)?;
        if store.contains(block.get().file()) || store.put(block).is_err() {
            return Err(NoMemory);
        }
    }
    Ok(store)
}

// The first file of a record, with a byte in it.
fn block_of(alloc: Global, k: u32) -> Result<Shared<Block>, NoMemory> {
    let text = Bytes::new(b"x".to_vec(alloc)?).unwrap();
    Shared::new(alloc, Block::new(file_of(k), Outcome::Value(text)))
}

// The first file of a record.
fn file_of(k: u32) -> FileId {
    FileId {
        rec: RecordId(k),
        out: 0,
    }
}

// So many files of so many, in no order.
fn files_of(alloc: Global, blocks: u32, times: u32) -> Result<Vec<FileId>, AllocError>
    requires { 1 ≤ blocks }
    ensures { IfOk result (λ files. vec_len files ≡ times) }
{
    (0..times)
        .map(|k| file_of(k.wrapping_mul(2_654_435_761) % blocks))
        .collect(alloc)
}

/// Makes each of these files in turn the most recently used.
pub(crate) fn touch_all(store: &mut Store, files: &[FileId])
    ensures { store.new ≡ contents store.old.capacity (touched_by (reverse files.now) store.old.blocks) }
{
    for file in files {
        store.touch(*file);
    }
}

/// Takes out the least recently used file and puts it in again, so often, and answers how often it was put in.
pub(crate) fn renew_often(store: &mut Store, times: u32) -> u32
    ensures most { result ≤ times }
    ensures all { result ≡ times → store.new ≡ contents store.old.capacity (renewed_by times store.old.blocks) }
{
    let mut puts = 0;
    for _ in 0..times {
        if renew(store) {
            puts += 1;
        }
    }
    puts
}

// Takes out the least recently used file and puts it in again; whether it was put in.
fn renew(store: &mut Store) -> bool
    ensures { IsTrue result → store.new ≡ contents store.old.capacity (renewed store.old.blocks) }
{
    let Some(file) = store.victim(&Nothing) else {
        return false;
    };
    match store.remove(file) {
        Some(block) => store.put(block).is_ok(),
        None => false,
    }
}
