//! A pin is set or cleared.

ghost use Rattle.std.specs.Prelude.{◌≡◌, ℕ, if◌then◌else◌, IfOk, OnErr};
ghost use Rattle.tl_names.specs.Answers.{Answers, tables};
ghost use Rattle.tl_names.specs.Tables.{IsTree};

use crate::child::Child;
use crate::directory::Directory;
use crate::dirs::{above, last_name, set_child};
use crate::looks::walk_to_file;
use crate::pins::Pins;
use slab::Slab;
use std::alloc::Global;
use tl_model::{Command, Reply};
use tl_types::{NoMemory, Path};

/// The answer to a pin, or to an unpin.
pub fn set_pin(
    alloc: Global,
    dirs: &mut Slab<Directory>,
    pins: &mut Pins,
    path: &Path,
    pinned: bool,
) -> Result<Reply, NoMemory>
    requires { IsTree dirs.old.slots }
    ensures ok { (count : ℕ) → IfOk result (λ reply.
        Answers (tables dirs.old.slots pins.old) (tables dirs.new.slots pins.new) count (if pinned then Command.Pin path.now else Command.Unpin path.now) reply) }
    ensures err { OnErr result ((dirs.new.slots ≡ dirs.old.slots) × (pins.new ≡ pins.old)) }
{
    let file = match walk_to_file(dirs, path) {
        Ok(file) => file,
        Err(refusal) => return Ok(refusal),
    };
    let name = last_name(alloc, path)?;
    pins.set(file, pinned)?;
    let d = above(dirs, path);
    if set_child(dirs, d, name, Child::File { file, pinned }).is_err() {
        unreachable!();
    }
    Ok(Reply::Fine)
}
