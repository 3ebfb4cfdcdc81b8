//! The record that a command adds where it is accepted.

ghost use Rattle.std.specs.Prelude.{◌≡◌, IfOk};
ghost use Rattle.tl_model.specs.Namespace.{Names as NameList};
ghost use Rattle.tl_names.specs.Answers.{HasFewOutputs};
ghost use Rattle.tl_names.specs.Standing.{StandsFor};
ghost use Rattle.tl_ledger.specs.Naming.{file_found, file_named, files_named, record_for};

use std::alloc::{AllocError, Global};
use tl_model::{Command, Record};
use tl_names::{Found, Names};
use tl_types::{FileId, Items, NoMemory, Path, RecordId};

/// The record of this number that the command adds where it is accepted.
pub(crate) fn record_for<T>(
    alloc: Global,
    names: &Names,
    made: RecordId,
    command: &Command<T>,
) -> Result<Option<Record>, NoMemory>
    requires { HasFewOutputs command.now }
    ensures { (ns : NameList) → StandsFor names.now.dirs ns →
        IfOk result (λ rec. rec ≡ record_for made ns command.now) }
{
    match command {
        Command::Put { .. } => Ok(Some(Record::Put { id: made })),
        Command::Job {
            core,
            prio,
            inputs,
            outputs,
        } => {
            let files = files_named(alloc, names, inputs.as_slice())?;
            Ok(Some(Record::Job {
                id: made,
                core: core.try_clone()?,
                prio: *prio,
                inputs: Items::from_vec(files),
                outputs: outputs.len() as u8,
            }))
        }
        _ => Ok(None),
    }
}

// The files that the paths name.
fn files_named(alloc: Global, names: &Names, paths: &[Path]) -> Result<Vec<FileId>, AllocError>
    ensures { (ns : NameList) → StandsFor names.now.dirs ns →
        IfOk result (λ files. files.items ≡ files_named ns paths.now) }
{
    let mut files = Vec::new(alloc);
    let mut rest = paths;
    'paths: while let Some((path, later)) = rest.split_first() {
        if let Some(file) = file_named(names, path) {
            files.push(file)?;
        }
        rest = later;
    }
    Ok(files)
}

/// The file that a path names.
pub(crate) fn file_named(names: &Names, path: &Path) -> Option<FileId>
    ensures { (ns : NameList) → StandsFor names.now.dirs ns → result ≡ file_named ns path.now }
{
    file_found(names.resolve(path))
}

// The file that was found, if it is one.
fn file_found(found: Found) -> Option<FileId>
    ensures { result ≡ file_found found }
{
    match found {
        Found::File { file, .. } => Some(file),
        _ => None,
    }
}
