use tl_types::{Actor, Block, Shared};

/// A file that an actor has taken up to be saved.
#[derive(Debug, Drop)]
pub struct SaveJob {
    pub actor: Actor,
    /// The place of its Save in the journal.
    pub place: u64,
    pub block: Shared<Block>,
}
