//! A text taken apart into its lines, sifted, and joined again.
ghost use Rattle.std.specs.Prelude.{◌≡◌, vec_len, IfOk};

use crate::evaluation::{evaluate, first_size, input_of, job_of};
use crate::pace::Pace;
use std::alloc::{AllocError, Global};
use std::io;
use std::rt::Clock;
use std::time::Instant;

/// The jobs, each with a step more than the one before, and the name of that step.
const JOBS: [(&str, &str); 3] = [
    ("lines", "(job (str (count (lines (in 0)))))"),
    (
        "keep",
        "(job (str (count (keep x (lines (in 0)) (has x \"a\")))))",
    ),
    (
        "join",
        "(job (join (keep x (lines (in 0)) (has x \"a\")) \",\"))",
    ),
];

/// How many bytes a line has with its line feed.
const LINE: u32 = 16;

/// The units of fuel of a slice.
const SLICE: u32 = 1_024;

/// Evaluates each of the jobs on a text of so many bytes, and prints the units of fuel that it used and the bytes of
/// its output; on standard error how long that took, in bytes of the text, and a plain copy of the text.
pub(crate) fn measure(
    rt: &(impl Clock + Print + Eprint),
    alloc: Global,
    bytes: u32,
) -> io::Result<()> {
    let text = text_of(alloc, bytes)?;
    for (step, program) in JOBS {
        let job = job_of(alloc, program)?;
        let start = Instant::now(rt)?;
        let copy = text.as_slice().to_vec(alloc)?;
        let copying = start.elapsed(rt)?;
        let inputs = input_of(alloc, copy)?;
        let start = Instant::now(rt)?;
        let end = evaluate(alloc, &job, inputs, SLICE).map_err(|_| AllocError)?;
        let time = start.elapsed(rt)?;
        let units = end.units;
        let written = first_size(end.outcomes.as_slice());
        println!(rt; "text {bytes} {step} units {units} bytes {written}")?;
        let count = u64::from(bytes);
        let evaluating = Pace { count, time };
        let copying = Pace {
            count,
            time: copying,
        };
        eprintln!(rt; "  in bytes: {evaluating}")?;
        eprintln!(rt; "  plain copy, in bytes: {copying}")?;
    }
    Ok(())
}

// A text of so many bytes: lines of 15 letters `a` and lines of 15 letters `b` in turn.
fn text_of(alloc: Global, bytes: u32) -> Result<Vec<u8>, AllocError>
    ensures { IfOk result (λ text. vec_len text ≡ bytes) }
{
    (0..bytes).map(byte_at).collect(alloc)
}

// The byte at a place of the text.
fn byte_at(place: u32) -> u8 {
    if place % LINE == LINE - 1 {
        return b'\n';
    }
    if place / LINE % 2 == 0 { b'a' } else { b'b' }
}
