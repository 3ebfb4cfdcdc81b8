//! Answers to commands that change no name.

ghost use Rattle.std.specs.Prelude.{◌≡◌, ℕ, IfOk};
ghost use Rattle.tl_model.specs.declared.command.Form.{Form};
ghost use Rattle.tl_model.specs.Replies.{and_then};
ghost use Rattle.tl_names.specs.Answers.{Answers, tables};
ghost use Rattle.tl_names.specs.Pins.{PinList};
ghost use Rattle.tl_names.specs.Tables.{IsTree, file_of, place};

use crate::child::Child;
use crate::directory::Directory;
use crate::dirs::{child_count, listing, walk};
use slab::Slab;
use std::alloc::Global;
use tl_model::{Command, Reply, Status};
use tl_types::{FileId, Items, NoMemory, Path};

/// The file that a path names, or why there is none.
pub fn walk_to_file(dirs: &Slab<Directory>, path: &Path) -> Result<FileId, Reply>
    ensures { result ≡ and_then (place dirs.now.slots path.now) file_of }
{
    match walk(dirs, path) {
        Ok(Child::File { file, .. }) => Ok(file),
        Ok(Child::Dir(_)) => Err(Reply::NotFile),
        Err(refusal) => Err(refusal),
    }
}

/// The answer to a read.
pub fn read(dirs: &Slab<Directory>, path: &Path) -> Reply
    requires { IsTree dirs.now.slots }
    ensures { (pins : PinList) (count prio : ℕ) (form : Form) →
        Answers (tables dirs.now.slots pins) (tables dirs.now.slots pins) count (Command.Read path.now prio form) result }
{
    match walk_to_file(dirs, path) {
        Ok(file) => Reply::Opened(file),
        Err(refusal) => refusal,
    }
}

/// The answer to a free.
pub fn free(dirs: &Slab<Directory>, path: &Path) -> Reply
    requires { IsTree dirs.now.slots }
    ensures { (pins : PinList) (count : ℕ) →
        Answers (tables dirs.now.slots pins) (tables dirs.now.slots pins) count (Command.Free path.now) result }
{
    match walk_to_file(dirs, path) {
        Ok(_) => Reply::Fine,
        Err(refusal) => refusal,
    }
}

/// The answer to a stat.
pub fn stat(dirs: &Slab<Directory>, path: &Path) -> Reply
    requires { IsTree dirs.now.slots }
    ensures { (pins : PinList) (count : ℕ) →
        Answers (tables dirs.now.slots pins) (tables dirs.now.slots pins) count (Command.Stat path.now) result }
{
    match walk(dirs, path) {
        Ok(Child::Dir(d)) => {
            let children = child_count(dirs, d) as u64;
            Reply::Stated(Status::Dir { children })
        }
        Ok(Child::File { file, pinned }) => Reply::Stated(Status::File { file, pinned }),
        Err(refusal) => refusal,
    }
}

/// The answer to a list.
pub fn list(alloc: Global, dirs: &Slab<Directory>, path: &Path) -> Result<Reply, NoMemory>
    requires { IsTree dirs.now.slots }
    ensures { (pins : PinList) (count : ℕ) → IfOk result (λ reply.
        Answers (tables dirs.now.slots pins) (tables dirs.now.slots pins) count (Command.List path.now) reply) }
{
    match walk(dirs, path) {
        Ok(Child::Dir(d)) => {
            let entries = listing(alloc, dirs, d)?;
            Ok(Reply::Listed(Items::from_vec(entries)))
        }
        Ok(Child::File { .. }) => Ok(Reply::NotDir),
        Err(refusal) => Ok(refusal),
    }
}
