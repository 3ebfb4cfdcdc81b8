//! New names: of directories, and of the files that a record makes.

ghost use Rattle.std.specs.Prelude.{◌≡◌, ℕ, ◌+◌, ◌<◌, ◌≤◌, false, if◌then◌else◌, not, is_some, length, None, OnErr, OnSome, IfOk, IfNone};
ghost use Rattle.std.specs.BTreeMap.{insert_entry};
ghost use Rattle.std.specs.Cmp.Lexicographic.{slice_cmp};
ghost use Rattle.std.specs.Map.{remove_entry};
ghost use Rattle.std.specs.Ordering.{nat_cmp};
ghost use Rattle.std.specs.Str.{bytes_eq};
ghost use Rattle.slab.specs.Slab.{with_value};
ghost use Rattle.tl_types.specs.Same.{file_cmp, file_same};
ghost use Rattle.tl_types.specs.declared.digest.Digest.{Digest};
ghost use Rattle.tl_lang.specs.declared.job.JobSpecCore.{JobSpecCore};
ghost use Rattle.tl_model.specs.Namespace.{Names, last_part};
ghost use Rattle.tl_model.specs.Replies.{count_refusal, or_else, outputs_refusal, refusal_of};
ghost use Rattle.tl_names.specs.Answers.{Answers, tables};
ghost use Rattle.tl_names.specs.Pins.{MakesFiles, PinList, pin_in};
ghost use Rattle.tl_names.specs.Standing.{StandsFor};
ghost use Rattle.tl_names.specs.Tables.{IsKnown, IsTree, MakesDir, child_at, children_at, first_refusal, room_for};

use crate::child::Child;
use crate::directory::Directory;
use crate::dirs::{last_name, last_part, room_for, set_child, unset_child};
use crate::looks::walk_to_file;
use crate::pins::Pins;
use slab::Slab;
use std::alloc::Global;
use std::slice::from_ref;
use tl_model::{Command, Reply};
use tl_types::{FileId, NoMemory, Path, RecordId};

/// As many records as there may be.
const RECORD_LIMIT: u32 = 1_048_576;

/// Makes a name for a new directory. `Some` is why it can't be made.
pub fn make_dir(
    alloc: Global,
    dirs: &mut Slab<Directory>,
    path: &Path,
) -> Result<Option<Reply>, NoMemory>
    requires { IsTree dirs.old.slots }
    ensures refusal { IfOk result (λ refusal. refusal ≡ refusal_of (room_for dirs.old.slots path.now)) }
    ensures made { IfOk result (λ refusal. IfNone refusal (MakesDir dirs.old.slots dirs.new.slots path.now)) }
    ensures kept { IfOk result (λ refusal. OnSome refusal (dirs.new.slots ≡ dirs.old.slots)) }
    ensures err { OnErr result (dirs.new.slots ≡ dirs.old.slots) }
{
    let d = match room_for(dirs, path) {
        Ok(d) => d,
        Err(refusal) => return Ok(Some(refusal)),
    };
    let name = last_name(alloc, path)?;
    dirs.reserve(1)?;
    let made = dirs.vacant_key();
    set_child(dirs, d, name, Child::Dir(made))?;
    dirs.insert_reserved(Directory::new(alloc));
    Ok(None)
}

// Why a record can't be added after so many, if there is a reason.
#[tactic(auto, using(std::proofs::lemmas::Bool::Decides::nat_tests))]
fn count_refusal(count: u32) -> Option<Reply>
    ensures { result ≡ count_refusal count }
{
    if RECORD_LIMIT <= count {
        Some(Reply::TooMany)
    } else {
        None
    }
}

// Makes a name for a file in a directory that hasn't this name. The answer is whether the file is new
// among the files with a name.
fn add_file(
    alloc: Global,
    dirs: &mut Slab<Directory>,
    pins: &mut Pins,
    d: usize,
    path: &Path,
    file: FileId,
) -> Result<bool, NoMemory>
    requires known { IsKnown dirs.old.slots d }
    requires some { 0 < length path.now }
    requires absent { child_at dirs.old.slots d (last_part path.now) ≡ None }
    ensures named { IfOk result (λ _. dirs.new ≡ with_value dirs.old d (insert_entry (slice_cmp nat_cmp) (children_at dirs.old.slots d) (last_part path.now) (Child.File file false))) }
    ensures added { IfOk result (λ added. added ≡ not (is_some (pin_in pins.old file))) }
    ensures pins { IfOk result (λ added. pins.new ≡ (if added then insert_entry file_cmp pins.old file false else pins.old)) }
    ensures err { OnErr result ((dirs.new ≡ dirs.old) × (pins.new ≡ pins.old)) }
{
    let name = last_name(alloc, path)?;
    let child = Child::File {
        file,
        pinned: false,
    };
    set_child(dirs, d, name, child)?;
    match pins.add(file) {
        Ok(added) => Ok(added),
        Err(error) => {
            unset_child(dirs, d, last_part(path));
            Err(error)
        }
    }
}

// Takes a file's name away again.
fn remove_file(
    dirs: &mut Slab<Directory>,
    pins: &mut Pins,
    d: usize,
    path: &Path,
    file: FileId,
    added: bool,
)
    requires known { IsKnown dirs.old.slots d }
    requires some { 0 < length path.now }
    ensures named { dirs.new ≡ with_value dirs.old d (remove_entry (bytes_eq (last_part path.now)) (children_at dirs.old.slots d)) }
    ensures pins { pins.new ≡ (if added then remove_entry (file_same file) pins.old else pins.old) }
{
    unset_child(dirs, d, last_part(path));
    if added {
        pins.remove(file);
    }
}

/// Makes names for the outputs of a record, from number `out` on. `Some` is why the first that can't be
/// made can't, or why no record can be added; then none is made.
pub fn make_files(
    alloc: Global,
    dirs: &mut Slab<Directory>,
    pins: &mut Pins,
    paths: &[Path],
    made: RecordId,
    out: u8,
) -> Result<Option<Reply>, NoMemory>
    requires tree { IsTree dirs.old.slots }
    requires few { out + length paths.now ≤ 255 }
    ensures refusal { (names : Names) → StandsFor dirs.old.slots names →
        IfOk result (λ refusal. refusal ≡ or_else (outputs_refusal names made.0 out paths.now) (count_refusal made.0)) }
    ensures made { IfOk result (λ refusal. IfNone refusal (MakesFiles dirs.old.slots pins.old dirs.new.slots pins.new paths.now made out)) }
    ensures kept { IfOk result (λ refusal. OnSome refusal ((dirs.new ≡ dirs.old) × (pins.new ≡ pins.old))) }
    ensures err { OnErr result ((dirs.new ≡ dirs.old) × (pins.new ≡ pins.old)) }
{
    let Some((path, rest)) = paths.split_first() else {
        return Ok(count_refusal(made.0));
    };
    let d = match room_for(dirs, path) {
        Ok(d) => d,
        Err(refusal) => return Ok(Some(refusal)),
    };
    let file = FileId { rec: made, out };
    let added = add_file(alloc, dirs, pins, d, path, file)?;
    match make_files(alloc, dirs, pins, rest, made, out + 1) {
        Ok(None) => Ok(None),
        Ok(Some(refusal)) => {
            remove_file(dirs, pins, d, path, file, added);
            Ok(Some(refusal))
        }
        Err(error) => {
            remove_file(dirs, pins, d, path, file, added);
            Err(error)
        }
    }
}

// Why the first path that names no file names none.
fn first_refusal(dirs: &Slab<Directory>, paths: &[Path]) -> Option<Reply>
    ensures { result ≡ first_refusal dirs.now.slots paths.now }
{
    for path in paths {
        if let Err(refusal) = walk_to_file(dirs, path) {
            return Some(refusal);
        }
    }
    None
}

/// The answer to a mkdir.
pub fn mkdir(alloc: Global, dirs: &mut Slab<Directory>, path: &Path) -> Result<Reply, NoMemory>
    requires { IsTree dirs.old.slots }
    ensures ok { (pins : PinList) (count : ℕ) → IfOk result (λ reply.
        Answers (tables dirs.old.slots pins) (tables dirs.new.slots pins) count (Command.Mkdir path.now) reply) }
    ensures err { OnErr result (dirs.new.slots ≡ dirs.old.slots) }
{
    match make_dir(alloc, dirs, path)? {
        None => Ok(Reply::Fine),
        Some(refusal) => Ok(refusal),
    }
}

/// The answer to a put, which would be the record `next`.
pub fn put(
    alloc: Global,
    dirs: &mut Slab<Directory>,
    pins: &mut Pins,
    path: &Path,
    next: RecordId,
) -> Result<Reply, NoMemory>
    requires { IsTree dirs.old.slots }
    ensures ok { (len : ℕ) (digest : Digest) → IfOk result (λ reply.
        Answers (tables dirs.old.slots pins.old) (tables dirs.new.slots pins.new) next.0 (Command.Put path.now len digest tt) reply) }
    ensures err { OnErr result ((dirs.new.slots ≡ dirs.old.slots) × (pins.new ≡ pins.old)) }
{
    match make_files(alloc, dirs, pins, from_ref(path), next, 0)? {
        None => Ok(Reply::Made(next)),
        Some(refusal) => Ok(refusal),
    }
}

/// The answer to a job, which would be the record `next`.
pub fn job(
    alloc: Global,
    dirs: &mut Slab<Directory>,
    pins: &mut Pins,
    inputs: &[Path],
    outputs: &[Path],
    next: RecordId,
) -> Result<Reply, NoMemory>
    requires tree { IsTree dirs.old.slots }
    requires few { length outputs.now ≤ 255 }
    ensures ok { (core : JobSpecCore) (prio : ℕ) → IfOk result (λ reply.
        Answers (tables dirs.old.slots pins.old) (tables dirs.new.slots pins.new) next.0 (Command.Job core prio inputs.now outputs.now) reply) }
    ensures err { OnErr result ((dirs.new.slots ≡ dirs.old.slots) × (pins.new ≡ pins.old)) }
{
    if let Some(refusal) = first_refusal(dirs, inputs) {
        return Ok(refusal);
    }
    match make_files(alloc, dirs, pins, outputs, next, 0)? {
        None => Ok(Reply::Made(next)),
        Some(refusal) => Ok(refusal),
    }
}
