use crate::{Boxed, Checked, Conf, Expr, Items, JobSpecCore, Name, Program};
use std::test::Fail;
use tl_types::Bytes;

#[tactic(auto, unfolding(crate::specs::Computing::computing))]
#[test]
fn a_job_is_made(rt: HostRuntime) -> Result<(), Fail> {
    let alloc = rt.alloc();
    let bang = Bytes::new(b"!".to_vec(alloc)?).ok_or("too long")?;
    let shout = Expr::Cat(
        Boxed::new(alloc, Expr::Input(0))?,
        Boxed::new(alloc, Expr::Text(bang))?,
    );
    let mut outputs = Vec::new(alloc);
    outputs.push(shout)?;
    let program = Program {
        outputs: Items::from_vec(outputs),
    };
    let job = JobSpecCore {
        program: Checked::new(program, 1, 1),
        conf: Conf::new(Vec::new(alloc)).ok_or("refused")?,
        fuel: 3,
    };
    assert_eq!(rt; job.program.inputs(), 1);
    assert_eq!(rt; job.conf.pairs().len(), 0);
    Ok(())
}

#[test]
fn a_name_is_copied(rt: HostRuntime) -> Result<(), Fail> {
    let name = Name::from_vec(b"line".to_vec(rt.alloc())?);
    assert_eq!(rt; name.clone()?, name);
    Ok(())
}
