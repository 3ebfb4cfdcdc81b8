use tl_types::FileId;

/// What a path names, or why it names nothing.
#[derive(Clone, Copy, Debug, PartialEq, Eq)]
pub enum Found {
    Dir,
    File { file: FileId, pinned: bool },
    /// Nothing has the path.
    NoSuch,
    /// The path goes on below a file.
    NotDir,
}
