//! The lines of a script.

ghost use Rattle.std.specs.Prelude.{◌≡◌, ◌<◌, ◌≤◌, ◌++◌, IfOk, OnOk, string_bytes};
ghost use Rattle.tl_generate.specs.Generated.{drawn, generated, job_lines, jobs_to, lines_of, opening};

use crate::draws::Draws;
use std::alloc::{AllocError, Global};
use tl_types::NoMemory;

/// The script of `count` jobs, 1 to 100,000, whose lines are drawn from `seed`, as bytes. Only want
/// of memory is an error.
pub fn generate(alloc: Global, count: u32, seed: u64) -> Result<Vec<u8>, NoMemory>
    requires low { 1 ≤ count }
    requires high { count ≤ 100000 }
    ensures { IfOk result (λ bytes. bytes.items ≡ generated count seed) }
{
    let mut text = String::new(alloc);
    writeln!(text, "tachyon 1 workers 4 capacity 65536 hot 3")?;
    writeln!(text, "0 put /f0 \"0\"")?;
    append_jobs(&mut text, count, seed)?;
    writeln!(text, "0 sum 0 /f{count}")?;
    Ok(text.into_bytes())
}

// The lines of the jobs from 1 to `count`.
fn append_jobs(text: &mut String, count: u32, seed: u64) -> Result<(), AllocError>
    ensures { OnOk result (string_bytes text.new ≡ string_bytes text.old ++ jobs_to count seed) }
{
    let mut draws = Draws { state: seed };
    for before in 0..count {
        append_job(text, before + 1, &mut draws)?;
    }
    Ok(())
}

// The lines of one job, for which two numbers are drawn.
fn append_job(text: &mut String, number: u32, draws: &mut Draws) -> Result<(), AllocError>
    requires { 0 < number }
    ensures text { OnOk result (string_bytes text.new
        ≡ string_bytes text.old ++ job_lines number draws.old.state) }
    ensures draws { draws.new.state ≡ drawn (drawn draws.old.state) }
{
    let kind = draws.draw() % 8;
    let input = draws.draw() % u64::from(number);
    append_lines(text, number, kind, input)
}

// The job's line, and one more where the kind asks for it.
fn append_lines(text: &mut String, number: u32, kind: u64, input: u64) -> Result<(), AllocError>
    ensures { OnOk result (string_bytes text.new
        ≡ string_bytes text.old ++ lines_of number kind input) }
{
    let client = number % 4;
    write!(text, "{client} job {kind} 64 in /f{input} out /f{number}")?;
    writeln!(text, " run (job (cat (in 0) \"x\"))")?;
    match kind {
        6 => {
            let worker = input % 4;
            writeln!(text, "{client} lose {worker}")
        }
        7 => writeln!(text, "{client} sum 0 /f{number}"),
        _ => Ok(()),
    }
}
