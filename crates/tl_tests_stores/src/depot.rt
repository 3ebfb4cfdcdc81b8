use std::fs;
use std::test::Fail;
use tl_depot::{FolderDepot, FolderTicket};
use tl_io::{Depot, DepotError};

const FOLDER: &str = "tl_depot_test";

#[test]
fn folders_keep_bytes(rt: HostRuntime) -> Result<(), Fail> {
    let alloc = rt.alloc();
    let mut third = FolderDepot::new(&rt, FOLDER.to_string(alloc)?, 3);
    let mut twelfth = FolderDepot::new(&rt, FOLDER.to_string(alloc)?, 12);
    let fox = third.save(alloc, b"the quick brown fox")?;
    let dog = third.save(alloc, b"the lazy dog")?;
    let empty = twelfth.save(alloc, b"")?;
    assert_eq!(rt;
        [(fox.handle, fox.counter), (dog.handle, dog.counter)],
        [(3, 0), (3, 1)]
    );
    for (ticket, limit, bytes) in [
        (fox, 9, "the quick"),
        (dog, 5000, "the lazy dog"),
        (empty, 1, ""),
    ] {
        assert_eq!(rt;
            third.load(alloc, &ticket, limit)?.as_slice(),
            bytes.as_bytes()
        );
        assert_eq!(rt;
            twelfth.load(alloc, &ticket, limit)?.as_slice(),
            bytes.as_bytes()
        );
    }
    assert_eq!(rt;
        fs::read_to_string(&rt, "tl_depot_test/3-1")?.as_str(),
        "the lazy dog"
    );
    assert_eq!(rt; fs::read_to_string(&rt, "tl_depot_test/12-0")?.as_str(), "");
    let missing = FolderTicket {
        handle: 3,
        counter: 2,
    };
    assert_eq!(rt; third.load(alloc, &missing, 9), Err(DepotError::Failed));
    let mut under_a_file = FolderDepot::new(&rt, "tl_depot_test/3-1".to_string(alloc)?, 3);
    assert_eq!(rt; under_a_file.save(alloc, b"x"), Err(DepotError::Failed));
    fs::remove_dir_all(&rt, FOLDER)?;
    Ok(())
}
