ghost use Rattle.std.specs.Prelude.{◌≡◌, ◌+◌, ◌<◌, ◌^◌, ◌==◌, false, length, option_copied, [], ◌∷◌, IfOk, IfErr, OnOk, OnErr};
ghost use Rattle.std.specs.Map.{values_of};
ghost use Rattle.tl_store.specs.Contents.{block_size, size_of_block, contents, block_of, has, without, touched, used_by, victim};
ghost use Rattle.tl_store.specs.Kept.{EachKept};

use crate::excepted::Excepted;
use lru::LruCache;
use std::alloc::Global;
use std::marker::Model;
use std::num::NonZeroUsize;
use tl_types::{Block, FileId, NoMemory, Shared};

/// The blocks in one worker's memory, in the order of their last use, and how many bytes it may
/// have. Contracts see the capacity and the list of the blocks, the most recently used first. A
/// store may be over its capacity: whoever keeps it evicts the `victim`.
#[derive(Drop)]
pub struct Store {
    entries: LruCache<FileId, Shared<Block>>,
    capacity: u64,
    used: u128,
}

impl Model for Store {
    ghost use Rattle.std.specs.Map.{values_of};
    ghost use Rattle.tl_store.specs.Contents.{Contents, contents};
    ghost use Rattle.tl_store.specs.Kept.{IsTallied};

    ghost Value = { Contents };

    ghost view = { λ s. contents s.capacity (values_of s.entries.entries) };

    ghost invariant = { λ s. IsTallied s.entries.entries s.used };
}

impl Store {
    /// An empty store that may have `capacity` bytes.
    pub fn new(alloc: Global, capacity: u64) -> Result<Store, NoMemory>
        ensures { IfOk result (λ store. store ≡ contents capacity []) }
    {
        Ok(Store {
            entries: LruCache::sparse(alloc, NonZeroUsize::MIN)?,
            capacity,
            used: 0,
        })
    }

    /// Puts a block in front. `Err` is want of memory; it hands the block back, and nothing changed.
    pub fn put(&mut self, block: Shared<Block>) -> Result<(), Shared<Block>>
        requires absent { has block.file self.old.blocks ≡ false }
        ensures ok { OnOk result (self.new ≡ contents self.old.capacity (block ∷ self.old.blocks)) }
        ensures err { OnErr result (self.new ≡ self.old) }
        ensures back { IfErr result (λ back. back ≡ block) }
    {
        let size = put_entry(&mut self.entries, block)?;
        self.used += size as u128;
        Ok(())
    }

    /// The block of a file; `None` where it is not there. The order stays.
    pub fn get(&self, f: FileId) -> Option<&Shared<Block>>
        ensures { option_copied result ≡ block_of f self.now.blocks }
    {
        self.entries.peek(&f)
    }

    /// Whether a file is there.
    pub fn contains(&self, f: FileId) -> bool
        ensures { result ≡ has f self.now.blocks }
    {
        self.entries.contains(&f)
    }

    /// Makes a file the most recently used. A file that is not there changes nothing.
    pub fn touch(&mut self, f: FileId)
        ensures { self.new ≡ contents self.old.capacity (touched f self.old.blocks) }
    {
        promote_entry(&mut self.entries, f);
    }

    /// Takes a block out; `None` where the file is not there.
    pub fn remove(&mut self, f: FileId) -> Option<Shared<Block>>
        ensures removed { result ≡ block_of f self.old.blocks }
        ensures rest { self.new ≡ contents self.old.capacity (without f self.old.blocks) }
    {
        let block = take_entry(&mut self.entries, f)?;
        self.used -= block.get().outcome().size() as u128;
        Some(block)
    }

    /// Takes all blocks out.
    pub fn clear(&mut self)
        ensures { self.new ≡ contents self.old.capacity [] }
    {
        self.entries.clear();
        self.used = 0;
    }

    /// How many blocks there are.
    pub fn len(&self) -> usize
        ensures { result ≡ length self.now.blocks }
    {
        self.entries.len()
    }

    /// Whether there are no blocks.
    pub fn is_empty(&self) -> bool
        ensures { result ≡ (length self.now.blocks == 0) }
    {
        self.entries.is_empty()
    }

    /// How many bytes the blocks have together.
    pub fn used(&self) -> u128
        ensures { result ≡ used_by self.now.blocks }
    {
        self.used
    }

    /// How many bytes the worker may have.
    pub fn capacity(&self) -> u64
        ensures { result ≡ self.now.capacity }
    {
        self.capacity
    }

    /// The least recently used file that is not excepted; `None` where every file is.
    pub fn victim<X: Excepted>(&self, x: &X) -> Option<FileId>
        ensures { result ≡ victim (X.excepted x.now) self.now.blocks }
    {
        last_kept(&self.entries, x)
    }
}

type Entries = LruCache<FileId, Shared<Block>>;

// Puts a block in front, under its file, and answers its size.
fn put_entry(entries: &mut Entries, block: Shared<Block>) -> Result<usize, Shared<Block>>
    requires each { EachKept entries.old.entries }
    requires absent { has block.file (values_of entries.old.entries) ≡ false }
    ensures ok { OnOk result (entries.new.entries ≡ (block.file, block) ∷ entries.old.entries) }
    ensures size { IfOk result (λ size. size ≡ block_size block) }
    ensures each { OnOk result (EachKept entries.new.entries) }
    ensures fits { OnOk result (used_by (values_of entries.old.entries) + block_size block < 2 ^ 128) }
    ensures err { OnErr result (entries.new.entries ≡ entries.old.entries) }
    ensures back { IfErr result (λ back. back ≡ block) }
{
    make_room(entries);
    let file = block.get().file();
    let size = block.get().outcome().size();
    match entries.put(file, block) {
        Ok(_) => Ok(size),
        Err(failed) => Err(failed.value.1),
    }
}

// Raises the number of entries where it is reached, so that none is dropped for the next.
fn make_room(entries: &mut Entries)
    ensures same { entries.new.entries ≡ entries.old.entries }
    ensures room { length entries.new.entries < entries.new.cap }
    ensures fits { length entries.new.entries < 2 ^ 63 }
{
    let cap = entries.cap();
    let len = entries.len();
    if len == cap.get() {
        entries.resize(cap.saturating_add(len));
    }
}

// Puts the entry of a file in front.
fn promote_entry(entries: &mut Entries, f: FileId)
    requires each { EachKept entries.old.entries }
    ensures blocks { values_of entries.new.entries ≡ touched f (values_of entries.old.entries) }
    ensures each { EachKept entries.new.entries }
    ensures used { used_by (values_of entries.new.entries) ≡ used_by (values_of entries.old.entries) }
{
    let _distinct = entries.len();
    entries.promote(&f);
}

// Takes out the entry of a file.
fn take_entry(entries: &mut Entries, f: FileId) -> Option<Shared<Block>>
    requires each { EachKept entries.old.entries }
    ensures removed { result ≡ block_of f (values_of entries.old.entries) }
    ensures blocks { values_of entries.new.entries ≡ without f (values_of entries.old.entries) }
    ensures each { EachKept entries.new.entries }
    ensures used { used_by (values_of entries.new.entries) + size_of_block result ≡ used_by (values_of entries.old.entries) }
{
    let _distinct = entries.len();
    entries.pop(&f)
}

// The last file that is not excepted.
fn last_kept<X: Excepted>(entries: &Entries, x: &X) -> Option<FileId>
    requires each { EachKept entries.now.entries }
    ensures { result ≡ victim (X.excepted x.now) (values_of entries.now.entries) }
{
    let mut left = entries.iter();
    while let Some((file, _)) = left.next_back() {
        if !x.holds(*file) {
            return Some(*file);
        }
    }
    None
}
