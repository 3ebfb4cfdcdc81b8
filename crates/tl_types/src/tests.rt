use crate::{Block, Bytes, FileId, Items, Outcome, Path, Prio, RecordId, Shared};
use std::test::Fail;

// The parts of a text between slashes.
fn parts_of(rt: &HostRuntime, text: &str) -> Result<Vec<Vec<u8>>, Fail> {
    let mut parts = Vec::new(rt.alloc());
    for part in text.split('/') {
        parts.push(part.as_bytes().to_vec(rt.alloc())?)?;
    }
    Ok(parts)
}

#[test]
fn paths(rt: HostRuntime) -> Result<(), Fail> {
    let cases = [
        ("a", true),
        ("a/b/c", true),
        ("...", true),
        ("!~[]", true),
        ("a/./b", false),
        ("..", false),
        ("a//b", false),
        ("a b", false),
        ("a\"b", false),
        ("a\tb", false),
        ("é", false),
        ("1/2/3/4/5/6/7/8/9/10/11/12/13/14/15/16", true),
        ("1/2/3/4/5/6/7/8/9/10/11/12/13/14/15/16/17", false),
    ];
    for (text, accepted) in cases {
        let path = Path::new(parts_of(&rt, text)?);
        assert_eq!(rt; path.is_some(), accepted, "{text}");
    }
    let path = Path::new(parts_of(&rt, "in/x")?).ok_or("a path")?;
    let copy = path.clone()?;
    assert_eq!(rt; copy, path);
    assert_eq!(rt; copy.len(), 2);
    assert_eq!(rt; copy.part(1), b"x".as_slice());
    let root = Path::new(Vec::new(rt.alloc())).ok_or("the empty path")?;
    assert!(rt; root.is_empty());
    assert!(rt; root < path);
    Ok(())
}

// The digests of "" and "abc" are examples of the standard (FIPS 180-4).
#[test]
fn digests(rt: HostRuntime) -> Result<(), Fail> {
    let file = FileId {
        rec: RecordId(3),
        out: 1,
    };
    let cases = [
        ("", [0xe3, 0xb0, 0xc4, 0x42], [0x78, 0x52, 0xb8, 0x55]),
        ("abc", [0xba, 0x78, 0x16, 0xbf], [0xf2, 0x00, 0x15, 0xad]),
    ];
    for (text, first, last) in cases {
        let bytes = Bytes::new(text.as_bytes().to_vec(rt.alloc())?).ok_or("short")?;
        let block = Block::new(file, Outcome::Value(bytes));
        let digest = block.digest().0;
        assert_eq!(rt; &digest[..4], first.as_slice());
        assert_eq!(rt; &digest[28..], last.as_slice());
        assert_eq!(rt; block.outcome().size(), text.len());
    }
    let fault = Block::new(file, Outcome::Fault(8));
    assert_eq!(rt; &fault.digest().0[30..], [0, 8].as_slice());
    assert_eq!(rt; fault.file(), file);
    Ok(())
}

#[test]
fn shared_and_listed(rt: HostRuntime) -> Result<(), Fail> {
    let bytes = Bytes::new([1, 2].to_vec(rt.alloc())?).ok_or("short")?;
    let outcome = Outcome::Value(bytes.clone()?);
    let shared = Shared::new(rt.alloc(), outcome.clone()?)?;
    let other = shared.try_clone()?;
    assert_eq!(rt; *other.get(), outcome);
    assert!(rt; other == shared);
    let items = Items::from_vec([3u8, 4].to_vec(rt.alloc())?);
    assert_eq!(rt; items.clone()?, items);
    assert_eq!(rt; items.as_slice(), [3, 4].as_slice());
    assert_eq!(rt; Prio::new(7).map(|prio| prio.get()), Some(7));
    assert_eq!(rt; Prio::new(8), None);
    Ok(())
}

fn crosses_threads<T: Send + Sync>(_value: &T) {}

#[test]
fn blocks_cross_threads(rt: HostRuntime) -> Result<(), Fail> {
    let file = FileId {
        rec: RecordId(0),
        out: 0,
    };
    let block = Shared::new(rt.alloc(), Block::new(file, Outcome::Fault(1)))?;
    crosses_threads(&block);
    Ok(())
}
