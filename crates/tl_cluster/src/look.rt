use tl_model::Saved;
use tl_types::{Block, Shared};

/// What is found of a file that is read.
#[derive(Debug, Drop)]
pub enum Look<T> {
    /// The block that is in memory; the read has ended with it.
    Have(Shared<Block>),
    /// What stands in the checkpoint store, where the file is in no memory; the read goes on.
    Saved(Saved<T>),
    /// Neither; the read goes on.
    NotYet,
}
