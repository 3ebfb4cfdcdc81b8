//! The directories by their numbers, walked from `/`.

ghost use Rattle.std.specs.Prelude.{◌≡◌, ◌≤◌, ◌<◌, length, map, take, None, Ok, OnOk, OnErr, IfOk, IsOk};
ghost use Rattle.std.specs.BTreeMap.{insert_entry};
ghost use Rattle.std.specs.Cmp.Lexicographic.{slice_cmp};
ghost use Rattle.std.specs.Map.{remove_entry};
ghost use Rattle.std.specs.Ordering.{nat_cmp};
ghost use Rattle.std.specs.Str.{bytes_eq};
ghost use Rattle.slab.specs.Slab.{with_value};
ghost use Rattle.tl_model.specs.Namespace.{parent, last_part};
ghost use Rattle.tl_names.specs.Tables.{IsKnown, child_at, children_at, entry_in, place, room_for, step};

use crate::child::Child;
use crate::directory::Directory;
use slab::Slab;
use std::alloc::Global;
use tl_model::{Entry, Reply};
use tl_types::{NoMemory, Path};

// What a name in the directory of this number stands for.
fn child_at(dirs: &Slab<Directory>, d: usize, name: &[u8]) -> Option<Child>
    ensures { result ≡ child_at dirs.now.slots d name.now }
{
    match dirs.get(d) {
        Some(directory) => directory.get(name),
        None => None,
    }
}

// One component further.
fn step(dirs: &Slab<Directory>, child: Child, part: &[u8]) -> Result<Child, Reply>
    ensures { result ≡ step dirs.now.slots part.now child }
{
    match child {
        Child::File { .. } => Err(Reply::NotDir),
        Child::Dir(d) => match child_at(dirs, d, part) {
            Some(next) => Ok(next),
            None => Err(Reply::NoSuch),
        },
    }
}

// What the first components of a path name, or why they can't be walked.
fn walk_front(dirs: &Slab<Directory>, path: &Path, len: usize) -> Result<Child, Reply>
    requires { len ≤ length path.now }
    ensures { result ≡ place dirs.now.slots (take len path.now) }
{
    let mut child = Child::Dir(0);
    for i in 0..len {
        match step(dirs, child, path.part(i)) {
            Ok(next) => child = next,
            Err(refusal) => return Err(refusal),
        }
    }
    Ok(child)
}

/// What a path names, or why it can't be walked.
pub fn walk(dirs: &Slab<Directory>, path: &Path) -> Result<Child, Reply>
    ensures { result ≡ place dirs.now.slots path.now }
{
    walk_front(dirs, path, path.len())
}

/// The number of names in a directory.
pub fn child_count(dirs: &Slab<Directory>, d: usize) -> usize
    ensures { result ≡ length (children_at dirs.now.slots d) }
{
    match dirs.get(d) {
        Some(directory) => directory.len(),
        None => 0,
    }
}

/// The names in a directory.
pub fn listing(alloc: Global, dirs: &Slab<Directory>, d: usize) -> Result<Vec<Entry>, NoMemory>
    ensures { IfOk result (λ entries. entries.items ≡ map entry_in (children_at dirs.now.slots d)) }
{
    match dirs.get(d) {
        Some(directory) => directory.list(alloc),
        None => Ok(Vec::new(alloc)),
    }
}

/// The last component of a path that has one.
pub fn last_part(path: &Path) -> &[u8]
    requires { 0 < length path.now }
    ensures { result.now ≡ last_part path.now }
{
    path.part(path.len() - 1)
}

/// A copy of the last component of a path that has one.
pub fn last_name(alloc: Global, path: &Path) -> Result<Vec<u8>, NoMemory>
    requires { 0 < length path.now }
    ensures { IfOk result (λ name. name.items ≡ last_part path.now) }
{
    Ok(last_part(path).to_vec(alloc)?)
}

/// The directory above a path, or why there is none. Of `/` it is `/`.
pub fn walk_above(dirs: &Slab<Directory>, path: &Path) -> Result<Child, Reply>
    ensures { result ≡ place dirs.now.slots (parent path.now) }
{
    walk_front(dirs, path, path.len().saturating_sub(1))
}

/// The directory above a path that names something and isn't `/`.
pub fn above(dirs: &Slab<Directory>, path: &Path) -> usize
    requires there { IsOk (place dirs.now.slots path.now) }
    requires some { 0 < length path.now }
    ensures { place dirs.now.slots (parent path.now) ≡ Ok (Child.Dir result) }
{
    match walk_above(dirs, path) {
        Ok(Child::Dir(d)) => d,
        Ok(Child::File { .. }) => unreachable!(),
        Err(_refusal) => unreachable!(),
    }
}

/// The directory in which a new name at the path can be made, or why none can.
#[tactic(auto, using(crate::proofs::Rooms::room_at))]
pub fn room_for(dirs: &Slab<Directory>, path: &Path) -> Result<usize, Reply>
    ensures { result ≡ room_for dirs.now.slots path.now }
{
    if path.is_empty() {
        return Err(Reply::Exists);
    }
    match walk_above(dirs, path) {
        Err(refusal) => Err(refusal),
        Ok(Child::File { .. }) => Err(Reply::NotDir),
        Ok(Child::Dir(d)) => match child_at(dirs, d, last_part(path)) {
            Some(_) => Err(Reply::Exists),
            None => Ok(d),
        },
    }
}

/// Lets a name in a directory stand for this from now on.
pub fn set_child(
    dirs: &mut Slab<Directory>,
    d: usize,
    name: Vec<u8>,
    child: Child,
) -> Result<(), NoMemory>
    requires { IsKnown dirs.old.slots d }
    ensures ok { OnOk result (dirs.new ≡ with_value dirs.old d (insert_entry (slice_cmp nat_cmp) (children_at dirs.old.slots d) name.items child)) }
    ensures err { OnErr result (dirs.new ≡ dirs.old) }
    ensures absent { OnErr result (child_at dirs.old.slots d name.items ≡ None) }
{
    let Some(directory) = dirs.get_mut(d) else {
        unreachable!()
    };
    directory.insert(name, child)
}

/// Takes a name in a directory away.
pub fn unset_child(dirs: &mut Slab<Directory>, d: usize, name: &[u8])
    requires { IsKnown dirs.old.slots d }
    ensures entries { dirs.new ≡ with_value dirs.old d (remove_entry (bytes_eq name.now) (children_at dirs.old.slots d)) }
    ensures gone { child_at dirs.new.slots d name.now ≡ None }
{
    let Some(directory) = dirs.get_mut(d) else {
        unreachable!()
    };
    directory.remove(name);
}
