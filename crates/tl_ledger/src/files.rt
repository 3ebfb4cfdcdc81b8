//! The file that a call leaves without a name, and which files are pinned.

ghost use Rattle.std.specs.Prelude.{◌≡◌, ℕ};
ghost use Rattle.std.specs.List.{list_any};
ghost use Rattle.tl_model.specs.Namespace.{Names as NameList};
ghost use Rattle.tl_names.specs.Pins.{PinsStandFor, pins_file};
ghost use Rattle.tl_names.specs.Standing.{StandsFor};
ghost use Rattle.tl_ledger.specs.Naming.{deleted_file, gone_after};

use crate::records::file_named;
use tl_model::{Command, Reply};
use tl_names::Names;
use tl_types::FileId;

/// The file that the command is to delete, if there is one.
pub(crate) fn deleted_file<T>(names: &Names, command: &Command<T>) -> Option<FileId>
    ensures { (ns : NameList) → StandsFor names.now.dirs ns → result ≡ deleted_file ns command.now }
{
    match command {
        Command::Delete { path } => file_named(names, path),
        _ => None,
    }
}

/// The file that a call of this reply leaves without a name, of the one that it was to delete.
pub(crate) fn gone_after(reply: &Reply, deleted: Option<FileId>) -> Option<FileId>
    ensures { result ≡ gone_after reply.now deleted }
{
    match reply {
        Reply::Fine => deleted,
        _ => None,
    }
}

/// Whether the file is pinned.
pub(crate) fn is_pinned(names: &Names, file: FileId) -> bool
    ensures { (ns : NameList) (count : ℕ) → PinsStandFor names.now.pins ns count →
        result ≡ list_any (pins_file file) ns }
{
    names.pinned(file).unwrap_or(false)
}
