use crate::record_id::RecordId;

/// A file: an output, counted from 0, of a record. Files are ordered by record, then by output, and
/// printed `R.K`.
#[derive(Clone, Copy, Debug, PartialEq, Eq, PartialOrd, Ord, Hash)]
pub struct FileId {
    pub rec: RecordId,
    pub out: u8,
}
