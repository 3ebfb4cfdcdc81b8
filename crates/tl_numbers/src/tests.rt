use crate::NumberSet;
use std::test::Fail;

#[test]
fn numbers_come_and_go(rt: HostRuntime) -> Result<(), Fail> {
    let mut set = NumberSet::new(rt.alloc());
    set.room(300_000)?;
    set.insert(5);
    set.insert(64);
    set.insert(4_159);
    set.insert(299_999);
    set.room(1_048_577)?;
    set.insert(1_048_576);
    set.remove(64);
    set.remove(2_000_000);
    assert_eq!(rt;
        [
            set.least(),
            set.greatest(),
            set.greatest_below(1_048_576),
            set.greatest_below(5),
            set.least_from(6),
            set.least_from(1_048_577),
        ],
        [
            Some(5),
            Some(1_048_576),
            Some(299_999),
            None,
            Some(4_159),
            None
        ]
    );
    assert!(rt; set.contains(4_159) && !set.contains(64) && !set.contains(1_048_577));
    set.clear();
    assert!(rt; set.is_empty());
    assert_eq!(rt; set.bound(), 1_048_577);
    Ok(())
}
