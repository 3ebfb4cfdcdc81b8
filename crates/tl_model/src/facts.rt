ghost use Rattle.std.specs.Prelude.{◌≡◌};
ghost use Rattle.tl_model.specs.Past.{Past};
ghost use Rattle.tl_model.specs.Plan.{is_task, is_ready, is_wanted};

use tl_types::{FileId, RecordId};

/// What a plan of the jobs answers about a journal.
pub trait Facts {
    // The journals for which the answers stand.
    ghost speaks_of: { Self → Past → Type 0 };

    /// Whether the record is a task.
    fn is_task(&self, made: RecordId) -> bool
        ensures { (past : Past) → speaks_of self.now past → result ≡ is_task past made };

    /// Whether the record is a task that can be run.
    fn is_ready(&self, made: RecordId) -> bool
        ensures { (past : Past) → speaks_of self.now past → result ≡ is_ready past made };

    /// Whether the file is wanted.
    fn is_wanted(&self, file: FileId) -> bool
        ensures { (past : Past) → speaks_of self.now past → result ≡ is_wanted past file };
}
