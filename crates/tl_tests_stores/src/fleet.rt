ghost use Rattle.std.specs.Prelude.{◌≡◌, IfOk};

use std::test::Fail;
use tl_fleet::{Excepted, Fleet, ascending};
use tl_types::{Block, Bytes, FileId, Outcome, RecordId, Shared, WorkerId};

fn file(n: u32) -> FileId
    ensures { result ≡ record { rec = record { 0 = n }; out = 0 } }
{
    FileId {
        rec: RecordId(n),
        out: 0,
    }
}

// A file's block of two bytes.
fn block_of(rt: &HostRuntime, n: u32) -> Result<Shared<Block>, Fail>
    ensures { IfOk result (λ block. block.file ≡ record { rec = record { 0 = n }; out = 0 }) }
{
    let bytes = Bytes::new([7, 7].to_vec(rt.alloc())?).ok_or("short")?;
    Ok(Shared::new(rt.alloc(), Block::new(file(n), Outcome::Value(bytes)))?)
}

// Whether a block of two bytes of a new file was installed.
fn install(rt: &HostRuntime, fleet: &mut Fleet, w: u8, n: u32) -> Result<bool, Fail> {
    let block = block_of(rt, n)?;
    let worker = WorkerId(w);
    if (w as usize) >= fleet.len() {
        return Ok(false);
    }
    if fleet.is_resident(block.get().file()) {
        return Ok(false);
    }
    Ok(fleet.install(worker, block).is_ok())
}

// A fleet of one worker that may have no bytes, to which the blocks of files 1, 2 and 3 came at once.
fn three_at_once(rt: &HostRuntime) -> Result<Fleet, Fail> {
    let mut fleet = Fleet::new(rt.alloc(), 1, 0)?;
    let mut blocks = Vec::new(rt.alloc());
    blocks.push(block_of(rt, 1)?)?;
    blocks.push(block_of(rt, 2)?)?;
    blocks.push(block_of(rt, 3)?)?;
    match fleet.install_all(WorkerId(0), blocks) {
        Ok(()) => Ok(fleet),
        Err(_) => Err(Fail::from("memory ran out")),
    }
}

// The files below a number.
struct Below(u32);

impl Excepted for Below {
    ghost use Rattle.std.specs.Prelude.{nat_lt};

    ghost excepted = { λ below f. nat_lt f.rec.0 below.0 };

    fn holds(&self, f: FileId) -> bool {
        f.rec.0 < self.0
    }
}

#[test]
fn files_come_and_go(rt: HostRuntime) -> Result<(), Fail> {
    let mut fleet = Fleet::new(rt.alloc(), 2, 3)?;
    assert!(rt; !fleet.is_empty());
    for (w, n) in [(0, 0), (1, 1), (1, 2), (0, 3)] {
        assert!(rt; install(&rt, &mut fleet, w, n)?);
    }
    assert_eq!(rt; fleet.find(file(2)).map(|found| found.0), Some(WorkerId(1)));
    assert_eq!(rt;
        fleet.find(file(2)).map(|found| found.1.get().file()),
        Some(file(2))
    );
    assert_eq!(rt; fleet.settle_one(&Below(4)), None);
    fleet.touch(file(1));
    assert_eq!(rt; fleet.settle_one(&Below(1)), Some((WorkerId(0), file(3))));
    assert_eq!(rt; fleet.settle_one(&Below(0)), Some((WorkerId(1), file(2))));
    assert_eq!(rt; fleet.settle_one(&Below(0)), None);
    assert!(rt; fleet.find(file(2)).is_none());
    fleet.free(file(1));
    assert!(rt; !fleet.is_resident(file(1)));
    Ok(())
}

#[test]
fn blocks_come_at_once(rt: HostRuntime) -> Result<(), Fail> {
    let mut fleet = three_at_once(&rt)?;
    for n in 1..4 {
        assert_eq!(rt; fleet.find(file(n)).map(|found| found.0), Some(WorkerId(0)));
    }
    for n in 1..4 {
        assert_eq!(rt; fleet.settle_one(&Below(0)), Some((WorkerId(0), file(n))));
    }
    assert_eq!(rt; fleet.settle_one(&Below(0)), None);
    Ok(())
}

// The files of these records and outputs.
fn files(rt: &HostRuntime, ids: &[(u32, u8)]) -> Result<Vec<FileId>, Fail> {
    let mut files = Vec::new(rt.alloc());
    for (rec, out) in ids {
        files.push(FileId {
            rec: RecordId(*rec),
            out: *out,
        })?;
    }
    Ok(files)
}

// Whether files, each once and in ascending order, are these.
fn ascend_as(rt: &HostRuntime, ids: &[(u32, u8)], sorted: &[(u32, u8)]) -> Result<bool, Fail> {
    let found = ascending(rt.alloc(), &files(rt, ids)?)?;
    Ok(found == files(rt, sorted)?)
}

#[test]
fn files_ascend(rt: HostRuntime) -> Result<(), Fail> {
    let rows: [(&[(u32, u8)], &[(u32, u8)]); 4] = [
        (&[], &[]),
        (&[(5, 0)], &[(5, 0)]),
        (&[(2, 1), (2, 1), (2, 1)], &[(2, 1)]),
        (
            &[(7, 0), (1, 9), (7, 0), (1, 2), (0, 3)],
            &[(0, 3), (1, 2), (1, 9), (7, 0)],
        ),
    ];
    for (ids, sorted) in rows {
        assert!(rt; ascend_as(&rt, ids, sorted)?);
    }
    Ok(())
}

// Whether files 1, 2 and 3 are dropped in this order once these files were used.
fn drops_after(rt: &HostRuntime, used: &[(u32, u8)], dropped: [u32; 3]) -> Result<bool, Fail> {
    let mut fleet = three_at_once(rt)?;
    fleet.touch_each(&files(rt, used)?);
    for n in dropped {
        if fleet.settle_one(&Below(0)) != Some((WorkerId(0), file(n))) {
            return Ok(false);
        }
    }
    Ok(fleet.settle_one(&Below(0)).is_none())
}

#[test]
fn used_files_are_dropped_last(rt: HostRuntime) -> Result<(), Fail> {
    let rows: [(&[(u32, u8)], [u32; 3]); 4] = [
        (&[], [1, 2, 3]),
        (&[(1, 0)], [2, 3, 1]),
        (&[(1, 0), (2, 0)], [3, 1, 2]),
        (&[(2, 0), (9, 0), (1, 0), (3, 1)], [3, 2, 1]),
    ];
    for (used, dropped) in rows {
        assert!(rt; drops_after(&rt, used, dropped)?);
    }
    Ok(())
}

#[test]
fn many_files_on_one_worker(rt: HostRuntime) -> Result<(), Fail> {
    let mut fleet = Fleet::new(rt.alloc(), 1, 0)?;
    for n in 0..10_000u32 {
        assert!(rt; install(&rt, &mut fleet, 0, n)?);
    }
    for n in 0..10_000u32 {
        assert_eq!(rt; fleet.settle_one(&Below(0)), Some((WorkerId(0), file(n))));
    }
    assert_eq!(rt; fleet.settle_one(&Below(0)), None);
    Ok(())
}

#[test]
fn a_lost_worker_is_empty(rt: HostRuntime) -> Result<(), Fail> {
    let mut fleet = Fleet::new(rt.alloc(), 1, 9)?;
    assert!(rt; install(&rt, &mut fleet, 0, 5)?);
    assert!(rt; lose_first(&mut fleet));
    assert!(rt; !fleet.is_resident(file(5)));
    Ok(())
}

// Whether the first worker was lost, once, and has the next incarnation.
fn lose_first(fleet: &mut Fleet) -> bool {
    if fleet.is_empty() {
        return false;
    }
    let before = fleet.incarnation(WorkerId(0));
    if before == u64::MAX {
        return false;
    }
    fleet.lose(WorkerId(0));
    if fleet.is_empty() {
        return false;
    }
    fleet.incarnation(WorkerId(0)) == before + 1
}
