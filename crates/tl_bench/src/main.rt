//! The program `tl_bench`: measures what its words name. Counts go to standard output, times and rates to standard
//! error.
#![tactic(auto)]

mod alone;
mod blocks;
mod book;
mod chain;
mod crowd;
mod evaluation;
mod fold;
mod folder;
mod measure;
mod names;
mod pace;
mod script;
#[cfg(test)]
mod tests;
mod text;
mod turns;

use crate::measure::Measure;
use std::process::ExitCode;
use std::{env, io};

/// The exit status where the words name no measurement.
const BAD_WORDS: u8 = 2;

fn main(rt: HostRuntime) -> io::Result<ExitCode> {
    let words: Vec<String> = env::args(&rt)?.skip(1).collect(rt.alloc())?;
    match Measure::of(&words) {
        Some(Measure::Script { lines }) => script::measure(&rt, rt.alloc(), lines)?,
        Some(Measure::Chain { jobs }) => chain::measure(&rt, rt.alloc(), jobs)?,
        Some(Measure::Fold { lines }) => fold::measure(&rt, rt.alloc(), lines)?,
        Some(Measure::Text { bytes }) => text::measure(&rt, rt.alloc(), bytes)?,
        Some(Measure::Names { many }) => names::measure(&rt, rt.alloc(), many)?,
        Some(Measure::Blocks { blocks, times }) => blocks::measure(&rt, rt.alloc(), blocks, times)?,
        Some(Measure::Folder { folder, blocks }) => folder::measure(
            &rt,
            rt.alloc(),
            folder,
            blocks,
        )?,
        Some(Measure::Small) => small(&rt)?,
        Some(Measure::Turns { seats, turns }) => turns::measure(&rt, rt.alloc(), seats, turns)?,
        None => {
            println!(rt; "words")?;
            return Ok(ExitCode::from(BAD_WORDS));
        }
    }
    Ok(ExitCode::SUCCESS)
}

// Each measurement that starts no threads, at a small size.
fn small(rt: &HostRuntime) -> io::Result<()> {
    let alloc = rt.alloc();
    script::measure(rt, alloc, 10)?;
    chain::measure(rt, alloc, 3)?;
    fold::measure(rt, alloc, 10)?;
    text::measure(rt, alloc, 100)?;
    names::measure(rt, alloc, 20)?;
    blocks::measure(rt, alloc, 10, 25)?;
    folder::measure(rt, alloc, ".", 2)
}
