use std::test::Fail;
use tl_store::{Excepted, Store};
use tl_types::{Block, Bytes, FileId, Outcome, RecordId, Shared};

fn file(n: u32) -> FileId {
    FileId {
        rec: RecordId(n),
        out: 0,
    }
}

// A block of `len` bytes.
fn block(rt: &HostRuntime, n: u32, len: usize) -> Result<Shared<Block>, Fail> {
    let mut bytes = Vec::new(rt.alloc());
    for _ in 0..len {
        bytes.push(7u8)?;
    }
    let bytes = Bytes::new(bytes).ok_or("short")?;
    Ok(Shared::new(rt.alloc(), Block::new(file(n), Outcome::Value(bytes)))?)
}

// Whether a block of a new file was put.
fn put(rt: &HostRuntime, store: &mut Store, n: u32, len: usize) -> Result<bool, Fail> {
    let block = block(rt, n, len)?;
    if store.contains(block.get().file()) {
        return Ok(false);
    }
    Ok(store.put(block).is_ok())
}

// The files below a number.
struct Below(u32);

impl Excepted for Below {
    ghost use Rattle.std.specs.Prelude.{nat_lt};

    ghost excepted = { λ below f. nat_lt f.rec.0 below.0 };

    fn holds(&self, f: FileId) -> bool {
        f.rec.0 < self.0
    }
}

#[test]
fn the_least_recently_used_goes_first(rt: HostRuntime) -> Result<(), Fail> {
    let mut store = Store::new(rt.alloc(), 5)?;
    for n in 0..3u32 {
        assert!(rt; put(&rt, &mut store, n, 2)?);
    }
    assert_eq!(rt; store.used(), 6);
    assert_eq!(rt; store.capacity(), 5);
    assert_eq!(rt; store.victim(&Below(0)), Some(file(0)));
    store.touch(file(0));
    assert_eq!(rt; store.victim(&Below(0)), Some(file(1)));
    assert_eq!(rt; store.victim(&Below(2)), Some(file(2)));
    assert_eq!(rt; store.victim(&Below(3)), None);
    assert!(rt; store.remove(file(1)).is_some());
    assert!(rt; store.get(file(1)).is_none());
    assert_eq!(rt; store.used(), 4);
    store.clear();
    assert_eq!(rt; store.used(), 0);
    assert!(rt; !store.contains(file(0)));
    Ok(())
}

#[test]
fn no_entry_is_dropped_by_itself(rt: HostRuntime) -> Result<(), Fail> {
    let mut store = Store::new(rt.alloc(), 1)?;
    for n in 0..10_000u32 {
        assert!(rt; put(&rt, &mut store, n, 1)?);
    }
    assert_eq!(rt; store.used(), 10_000);
    for n in 0..10_000u32 {
        assert_eq!(rt; store.victim(&Below(0)), Some(file(n)));
        assert_eq!(rt;
            store.get(file(n)).map(|kept| kept.get().file()),
            Some(file(n))
        );
        assert!(rt; store.remove(file(n)).is_some());
    }
    assert_eq!(rt; store.used(), 0);
    Ok(())
}
