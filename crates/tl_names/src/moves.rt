//! A name, and all below it, gets another path.

ghost use Rattle.std.specs.Prelude.{◌≡◌, ◌+◌, ◌<◌, ◌≤◌, ℕ, length, IfOk, OnErr};
ghost use Rattle.tl_types.specs.Path.{IsPath};
ghost use Rattle.tl_model.specs.Namespace.{is_below, parent};
ghost use Rattle.tl_names.specs.Answers.{Answers, tables};
ghost use Rattle.tl_names.specs.Moves.{bytes_of, child_fits};
ghost use Rattle.tl_names.specs.Pins.{PinList};
ghost use Rattle.tl_names.specs.Tables.{IsTree};

use crate::child::Child;
use crate::directory::Directory;
use crate::dirs::{above, last_name, last_part, room_for, set_child, unset_child, walk};
use slab::Slab;
use std::alloc::Global;
use tl_model::{Command, Reply};
use tl_types::{NoMemory, PARTS_LIMIT, Path, SPELLING_LIMIT};

// Whether the first path begins with the second.
fn is_below(path: &Path, front: &Path) -> bool
    ensures { result ≡ is_below path.now front.now }
{
    if path.len() < front.len() {
        return false;
    }
    for i in 0..front.len() {
        if path.part(i) != front.part(i) {
            return false;
        }
    }
    true
}

// As many bytes as all components but the last take, each with its `/`.
fn bytes_above(path: &Path) -> usize
    requires { IsPath path.now }
    ensures { result ≡ bytes_of (parent path.now) }
{
    let mut bytes = 0;
    for i in 0..path.len().saturating_sub(1) {
        bytes += 1 + path.part(i).len();
    }
    bytes
}

// Whether a name and all names below it fit, where so many components and bytes are left.
fn child_fits(dirs: &Slab<Directory>, name: &[u8], child: Child, parts: usize, bytes: usize) -> bool
    ensures { result ≡ child_fits dirs.now.slots parts bytes (name.now, child) }
{
    if parts == 0 {
        return false;
    }
    if name.len() >= bytes {
        return false;
    }
    let Child::Dir(d) = child else {
        return true;
    };
    let Some(directory) = dirs.get(d) else {
        return true;
    };
    for (next, below) in directory.iter() {
        if !child_fits(dirs, next, *below, parts - 1, bytes - 1 - name.len()) {
            return false;
        }
    }
    true
}

/// The answer to a rename.
pub fn rename(
    alloc: Global,
    dirs: &mut Slab<Directory>,
    from: &Path,
    to: &Path,
) -> Result<Reply, NoMemory>
    requires { IsTree dirs.old.slots }
    ensures ok { (pins : PinList) (count : ℕ) → IfOk result (λ reply.
        Answers (tables dirs.old.slots pins) (tables dirs.new.slots pins) count (Command.Rename from.now to.now) reply) }
    ensures err { OnErr result (dirs.new.slots ≡ dirs.old.slots) }
{
    let child = match walk(dirs, from) {
        Ok(child) => child,
        Err(refusal) => return Ok(refusal),
    };
    if is_below(to, from) {
        return Ok(Reply::IntoItself);
    }
    let d = match room_for(dirs, to) {
        Ok(d) => d,
        Err(refusal) => return Ok(refusal),
    };
    let parts = PARTS_LIMIT + 1 - to.len();
    let bytes = SPELLING_LIMIT - bytes_above(to);
    if !child_fits(dirs, last_part(to), child, parts, bytes) {
        return Ok(Reply::TooDeep);
    }
    let name = last_name(alloc, to)?;
    let left = above(dirs, from);
    set_child(dirs, d, name, child)?;
    unset_child(dirs, left, last_part(from));
    Ok(Reply::Fine)
}
