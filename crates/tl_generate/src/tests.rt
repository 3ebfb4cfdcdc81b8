//! Scripts as another program writes them, and that memory suffices for them.
use crate::generate;
use std::test::Fail;

const SIX_JOBS: &[u8] = b"tachyon 1 workers 4 capacity 65536 hot 3
0 put /f0 \"0\"
1 job 2 64 in /f0 out /f1 run (job (cat (in 0) \"x\"))
2 job 6 64 in /f1 out /f2 run (job (cat (in 0) \"x\"))
2 lose 1
3 job 1 64 in /f2 out /f3 run (job (cat (in 0) \"x\"))
0 job 1 64 in /f1 out /f4 run (job (cat (in 0) \"x\"))
1 job 2 64 in /f1 out /f5 run (job (cat (in 0) \"x\"))
2 job 7 64 in /f2 out /f6 run (job (cat (in 0) \"x\"))
2 sum 0 /f6
0 sum 0 /f6
";

#[test]
fn writes_six_jobs(rt: HostRuntime) -> Result<(), Fail> {
    assert!(rt; generate(rt.alloc(), 6, 4)?.as_slice() == SIX_JOBS);
    Ok(())
}

#[test]
fn ends_with_the_last_file(rt: HostRuntime) -> Result<(), Fail> {
    let bytes = generate(rt.alloc(), 100_000, 7)?;
    assert!(rt; bytes.ends_with(b"\n0 sum 0 /f100000\n"));
    Ok(())
}
