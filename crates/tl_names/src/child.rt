use tl_types::FileId;

/// What a name in a directory stands for: a directory, by its number, or a file.
#[derive(Clone, Copy, Debug, PartialEq, Eq)]
pub enum Child {
    Dir(usize),
    File { file: FileId, pinned: bool },
}
