//! The choice of the file that is saved next.

ghost use Rattle.std.specs.Prelude.{◌≡◌};
ghost use Rattle.tl_edge.specs.Data.{best_at, better_hot, better_leaf, can_save, choice, first_hot, first_hot_in, first_leaf, first_leaf_in, is_hot_file, is_saved_leaf};

use crate::output::Output;
use crate::outputs::Outputs;
use crate::save::{Save, is_being_saved};
use tl_types::FileId;

/// The file that is saved next, if there is one.
pub(crate) fn choice(saves: &[Save], hot: u32, files: &[Outputs]) -> Option<FileId>
    ensures { result ≡ choice saves.now hot files.now }
{
    match first_leaf(saves, files) {
        Some(leaf) => Some(leaf.file),
        None => file_of(first_hot(saves, hot, files)),
    }
}

// The file, if there is one.
fn file_of(found: Option<Output>) -> Option<FileId>
    ensures { result ≡ best_at found }
{
    match found {
        Some(output) => Some(output.file),
        None => None,
    }
}

// The leaf that can be saved and whose record was done first.
fn first_leaf(saves: &[Save], files: &[Outputs]) -> Option<Output>
    ensures { result ≡ first_leaf saves.now files.now }
{
    let mut best = None;
    for i in (0..files.len()).rev() {
        best = first_leaf_in(saves, files[i].as_slice(), best);
    }
    best
}

// The first such leaf among these, or the later one.
fn first_leaf_in(saves: &[Save], outputs: &[Output], later: Option<Output>) -> Option<Output>
    ensures { result ≡ first_leaf_in saves.now outputs.now later }
{
    let mut best = later;
    for i in (0..outputs.len()).rev() {
        best = better_leaf(saves, outputs[i], best);
    }
    best
}

// The file, where it is a leaf that can be saved and the later one's record was not done before.
fn better_leaf(saves: &[Save], output: Output, later: Option<Output>) -> Option<Output>
    ensures { result ≡ better_leaf saves.now output later }
{
    if !is_saved_leaf(saves, &output) {
        return later;
    }
    match later {
        Some(other) if other.last_done < output.last_done => later,
        _ => Some(output),
    }
}

// The file that is read most of those that are no leaves, are read often and can be saved.
fn first_hot(saves: &[Save], hot: u32, files: &[Outputs]) -> Option<Output>
    ensures { result ≡ first_hot saves.now hot files.now }
{
    let mut best = None;
    for i in (0..files.len()).rev() {
        best = first_hot_in(saves, hot, files[i].as_slice(), best);
    }
    best
}

// The one of these that is read most, or the later one.
fn first_hot_in(
    saves: &[Save],
    hot: u32,
    outputs: &[Output],
    later: Option<Output>,
) -> Option<Output>
    ensures { result ≡ first_hot_in saves.now hot outputs.now later }
{
    let mut best = later;
    for i in (0..outputs.len()).rev() {
        best = better_hot(saves, hot, outputs[i], best);
    }
    best
}

// The file, where it is no leaf, is read often and can be saved, and the later one is not read more.
fn better_hot(saves: &[Save], hot: u32, output: Output, later: Option<Output>) -> Option<Output>
    ensures { result ≡ better_hot saves.now hot output later }
{
    if !is_hot_file(saves, hot, &output) {
        return later;
    }
    match later {
        Some(other) if output.reads < other.reads => later,
        _ => Some(output),
    }
}

// Whether the file is a leaf that can be saved.
fn is_saved_leaf(saves: &[Save], output: &Output) -> bool
    ensures { result ≡ is_saved_leaf saves.now output.now }
{
    can_save(saves, output) && output.is_leaf
}

// Whether the file is no leaf, is read often and can be saved.
#[tactic(auto, using(std::proofs::lemmas::Bool::Decides::nat_tests))]
fn is_hot_file(saves: &[Save], hot: u32, output: &Output) -> bool
    ensures { result ≡ is_hot_file saves.now hot output.now }
{
    can_save(saves, output) && !output.is_leaf && hot as u64 <= output.reads
}

// Whether the file is named, in memory and not saved, and no save of it is open.
fn can_save(saves: &[Save], output: &Output) -> bool
    ensures { result ≡ can_save saves.now output.now }
{
    output.is_named
        && output.place.is_some()
        && !output.is_saved
        && !is_being_saved(saves, output.file)
}
