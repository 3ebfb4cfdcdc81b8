//! Copies of replies.

ghost use Rattle.std.specs.Prelude.{◌≡◌, false, IfOk, OnErr};
ghost use Rattle.tl_names.specs.Answers.{is_accepted};

use std::alloc::{AllocError, Global};
use tl_model::{Entry, Reply};
use tl_types::{Items, NoMemory};

/// A copy of a reply. Only a listing takes memory.
pub(crate) fn copy_reply(alloc: Global, reply: &Reply) -> Result<Reply, NoMemory>
    ensures ok { IfOk result (λ copy. copy ≡ reply.now) }
    ensures err { OnErr result (is_accepted reply.now ≡ false) }
{
    match reply {
        Reply::Made(made) => Ok(Reply::Made(*made)),
        Reply::Fine => Ok(Reply::Fine),
        Reply::Opened(file) => Ok(Reply::Opened(*file)),
        Reply::Listed(entries) => {
            let entries = copy_entries(alloc, entries.as_slice())?;
            Ok(Reply::Listed(Items::from_vec(entries)))
        }
        Reply::Stated(status) => Ok(Reply::Stated(*status)),
        Reply::Exists => Ok(Reply::Exists),
        Reply::NoSuch => Ok(Reply::NoSuch),
        Reply::NotFile => Ok(Reply::NotFile),
        Reply::NotDir => Ok(Reply::NotDir),
        Reply::NotEmpty => Ok(Reply::NotEmpty),
        Reply::TooDeep => Ok(Reply::TooDeep),
        Reply::IntoItself => Ok(Reply::IntoItself),
        Reply::TooMany => Ok(Reply::TooMany),
    }
}

// Copies of the names in a directory.
fn copy_entries(alloc: Global, entries: &[Entry]) -> Result<Vec<Entry>, AllocError>
    ensures { IfOk result (λ copies. copies.items ≡ entries.now) }
{
    let mut copies = Vec::new(alloc);
    for entry in entries {
        let name = Vec::from_slice(alloc, entry.name.as_slice())?;
        copies.push(Entry {
            name: Items::from_vec(name),
            dir: entry.dir,
        })?;
    }
    Ok(copies)
}
