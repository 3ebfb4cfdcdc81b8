use std::alloc::Global;
use std::test::Fail;
use tl_io::{Depot, FalseDepot, MemDepot};
use tl_model::{Damage, Saved};
use tl_types::{Bytes, Digest, FileId, Outcome, RecordId};
use tl_vault::{LoadError, Vault, load};

// SHA-256 of `abc`, of `abd` and of `abcd`.
const ABC: Digest = Digest([
    0xba, 0x78, 0x16, 0xbf, 0x8f, 0x01, 0xcf, 0xea, 0x41, 0x41, 0x40, 0xde, 0x5d, 0xae, 0x22, 0x23,
    0xb0, 0x03, 0x61, 0xa3, 0x96, 0x17, 0x7a, 0x9c, 0xb4, 0x10, 0xff, 0x61, 0xf2, 0x00, 0x15, 0xad,
]);

const ABD: Digest = Digest([
    0xa5, 0x2d, 0x15, 0x9f, 0x26, 0x2b, 0x2c, 0x6d, 0xdb, 0x72, 0x4a, 0x61, 0x84, 0x0b, 0xef, 0xc3,
    0x6e, 0xb3, 0x0c, 0x88, 0x87, 0x7a, 0x40, 0x30, 0xb6, 0x5c, 0xbe, 0x86, 0x29, 0x84, 0x49, 0xc9,
]);

const ABCD: Digest = Digest([
    0x88, 0xd4, 0x26, 0x6f, 0xd4, 0xe6, 0x33, 0x8d, 0x13, 0xb8, 0x45, 0xfc, 0xf2, 0x89, 0x57, 0x9d,
    0x20, 0x9c, 0x89, 0x78, 0x23, 0xb9, 0x21, 0x7d, 0xa3, 0xe1, 0x61, 0x93, 0x6f, 0x03, 0x15, 0x89,
]);

const FIRST: FileId = FileId {
    rec: RecordId(1),
    out: 0,
};

const SECOND: FileId = FileId {
    rec: RecordId(1),
    out: 1,
};

const THIRD: FileId = FileId {
    rec: RecordId(0),
    out: 1,
};

#[test]
fn vault_keeps_by_file(rt: HostRuntime) -> Result<(), Fail> {
    let mut vault: Vault<u8> = Vault::new(rt.alloc());
    vault.room(FIRST)?;
    vault.room(SECOND)?;
    assert!(rt; vault.get(FIRST).is_none());
    vault.insert(FIRST, Saved::Failed(3));
    assert!(rt; vault.get(SECOND).is_none());
    vault.insert(
        SECOND,
        Saved::Held {
            ticket: 9,
            len: 3,
            digest: ABC,
        },
    );
    assert!(rt; matches!(vault.get(FIRST), Some(Saved::Failed(3))));
    assert!(rt;
        matches!(
            vault.get(SECOND),
            Some(Saved::Held {
                ticket: 9,
                len: 3,
                ..
            })
        )
    );
    assert!(rt; vault.get(THIRD).is_none());
    Ok(())
}

#[test]
fn loads_give_the_value_or_its_cause(rt: HostRuntime) -> Result<(), Fail> {
    let alloc = rt.alloc();
    let mut depot = MemDepot::new([3].to_vec(alloc)?);
    let saved = Saved::Held {
        ticket: depot.save(alloc, b"abc")?,
        len: 3,
        digest: ABC,
    };
    let value = Bytes::new(b"abc".to_vec(alloc)?).map(Outcome::Value);
    assert_eq!(rt;
        load(alloc, &mut depot, &Saved::Failed(4)),
        Ok(Outcome::Fault(4))
    );
    assert_eq!(rt; load(alloc, &mut depot, &saved).ok(), value);
    assert_eq!(rt; load(alloc, &mut depot, &saved), Err(LoadError::Fault));
    assert_eq!(rt; load(alloc, &mut depot, &saved).ok(), value);
    Ok(())
}

// What a load of `abc` gives where the depot answers these bytes instead.
fn load_instead(alloc: Global, bytes: &[u8]) -> Result<Option<LoadError>, Fail> {
    let mut depot = FalseDepot::new(bytes.to_vec(alloc)?);
    let saved = Saved::Held {
        ticket: depot.save(alloc, b"abc")?,
        len: 3,
        digest: ABC,
    };
    Ok(load(alloc, &mut depot, &saved).err())
}

#[test]
fn damage_tells_both_pairs(rt: HostRuntime) -> Result<(), Fail> {
    let alloc = rt.alloc();
    assert_eq!(rt; load_instead(alloc, b"abc")?, None);
    let table: [(&[u8], u64, Digest); 2] = [(b"abd", 3, ABD), (b"abcd", 4, ABCD)];
    for (bytes, got_len, got) in table {
        let damage = Damage {
            kept_len: 3,
            kept: ABC,
            got_len,
            got,
        };
        assert_eq!(rt;
            load_instead(alloc, bytes)?,
            Some(LoadError::Damaged(damage))
        );
    }
    Ok(())
}
