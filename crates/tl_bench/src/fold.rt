//! An arithmetic fold, evaluated in slices.

use crate::evaluation::{FUEL, evaluate, first_size, input_of, job_of};
use crate::pace::Pace;
use std::alloc::{AllocError, Global};
use std::io;
use std::rt::Clock;
use std::time::Instant;

/// The job that counts, for each line of its input, all the lines, one by one.
const PROGRAM: &str = "(job (let m (lines (in 0)) (str (fold a x m 0 (fold b y m a (add b 1))))))";

/// The units of fuel of a slice; the last is the whole fuel of a job.
const SLICES: [u32; 4] = [1, 64, 4_096, FUEL];

/// Evaluates the job on so many empty lines, with each size of a slice, and prints the units of fuel that it used and
/// the bytes of its output, none where the fuel was used up; on standard error how long that took, in units.
pub(crate) fn measure(
    rt: &(impl Clock + Print + Eprint),
    alloc: Global,
    lines: u16,
) -> io::Result<()> {
    let job = job_of(alloc, PROGRAM)?;
    for slice in SLICES {
        let text = vec![in alloc; b'\n'; usize::from(lines)]?;
        let inputs = input_of(alloc, text)?;
        let start = Instant::now(rt)?;
        let end = evaluate(alloc, &job, inputs, slice).map_err(|_| AllocError)?;
        let pace = Pace {
            count: end.units,
            time: start.elapsed(rt)?,
        };
        let units = end.units;
        let bytes = first_size(end.outcomes.as_slice());
        println!(rt; "fold {lines} slice {slice} units {units} bytes {bytes}")?;
        eprintln!(rt; "  in units: {pace}")?;
    }
    Ok(())
}
