use tl_types::{FileId, Items, RecordId};

/// A name in a directory.
#[derive(Debug, Drop)]
pub struct Entry {
    pub name: Items<u8>,
    /// Whether it names a directory.
    pub dir: bool,
}

/// What a path names.
#[derive(Clone, Copy, Debug, PartialEq, Eq)]
pub enum Status {
    /// A file, and whether it is pinned.
    File { file: FileId, pinned: bool },
    /// A directory, with the number of names in it.
    Dir { children: u64 },
}

/// What the namespace answers to a command.
#[derive(Debug, Drop)]
pub enum Reply {
    /// The put or job is accepted as this record.
    Made(RecordId),
    /// It is done.
    Fine,
    /// The read is open on this file.
    Opened(FileId),
    /// The names in the directory, ascending by their bytes.
    Listed(Items<Entry>),
    /// What the path names.
    Stated(Status),
    /// Something has the path already.
    Exists,
    /// Nothing has the path.
    NoSuch,
    /// A directory stands where a file is wanted.
    NotFile,
    /// A file stands where a directory is wanted.
    NotDir,
    /// The directory has names in it, or is `/`.
    NotEmpty,
    /// A moved path would be longer than a path may be.
    TooDeep,
    /// A name would be moved to itself or below itself.
    IntoItself,
    /// As many records were accepted as there may be.
    TooMany,
}
