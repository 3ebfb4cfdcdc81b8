use tl_types::Digest;

/// What is kept of a file in the checkpoint store.
#[derive(Debug, Drop)]
pub enum Saved<T> {
    /// Its bytes, under the ticket, with their length and digest.
    Held { ticket: T, len: u64, digest: Digest },
    /// The code of the fault that it is.
    Failed(u8),
}
