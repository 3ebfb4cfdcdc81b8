//! A name is taken away.

ghost use Rattle.std.specs.Prelude.{ℕ};
ghost use Rattle.tl_names.specs.Answers.{Answers, tables};
ghost use Rattle.tl_names.specs.Tables.{IsTree};

use crate::child::Child;
use crate::directory::Directory;
use crate::dirs::{above, child_count, last_part, unset_child, walk};
use crate::pins::Pins;
use slab::Slab;
use tl_model::{Command, Reply};
use tl_types::Path;

/// The answer to a delete.
pub fn delete(dirs: &mut Slab<Directory>, pins: &mut Pins, path: &Path) -> Reply
    requires { IsTree dirs.old.slots }
    ensures { (count : ℕ) →
        Answers (tables dirs.old.slots pins.old) (tables dirs.new.slots pins.new) count (Command.Delete path.now) result }
{
    match walk(dirs, path) {
        Ok(Child::File { file, .. }) => {
            let d = above(dirs, path);
            unset_child(dirs, d, last_part(path));
            pins.remove(file);
            Reply::Fine
        }
        Ok(Child::Dir(emptied)) => {
            if path.is_empty() {
                return Reply::NotEmpty;
            }
            if child_count(dirs, emptied) > 0 {
                return Reply::NotEmpty;
            }
            let d = above(dirs, path);
            unset_child(dirs, d, last_part(path));
            let _names = dirs.remove(emptied);
            Reply::Fine
        }
        Err(refusal) => refusal,
    }
}
