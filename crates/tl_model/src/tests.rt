use super::*;
use std::test::Fail;
use tl_types::{Actor, FileId, Path, RecordId, WorkerId};

const HEADER: Header = Header {
    workers: 1,
    capacity: 100,
    hot: 3,
    order: OrderRule::Strict,
    version: Version::One,
};

#[test]
fn a_journal_keeps_its_events(rt: HostRuntime) -> Result<(), Fail> {
    let mut journal: Journal<u8> = Journal::new(rt.alloc(), HEADER);
    journal.reserve(2)?;
    let file = FileId {
        rec: RecordId(0),
        out: 0,
    };
    let path = Path::new(Vec::new(rt.alloc())).ok_or("no components")?;
    journal.append(Event {
        actor: Actor(0),
        act: Act::Call(Command::Free { path }, Reply::NotFile),
    });
    journal.append(Event {
        actor: Actor(0),
        act: Act::Drop(WorkerId(0), file),
    });
    assert_eq!(rt; journal.len(), 2);
    assert_eq!(rt; journal.calls(), 1);
    assert_eq!(rt; journal.header().capacity, 100);
    assert!(rt;
        matches!(
            journal.get(1),
            Some(Event {
                act: Act::Drop(..),
                ..
            })
        )
    );
    assert!(rt; journal.get(2).is_none());
    Ok(())
}
