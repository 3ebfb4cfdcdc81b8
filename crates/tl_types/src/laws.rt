ghost use Rattle.std.specs.Prelude.{◌≡◌, List, ℕ};
ghost use Rattle.std.specs.Bool.{Decides};
ghost use Rattle.tl_types.specs.Same.{record_same, file_same, worker_same, actor_same, digest_same, path_same, outcome_same, file_cmp};
ghost use Rattle.tl_types.specs.declared.actor.Actor.{Actor as ActorValue};
ghost use Rattle.tl_types.specs.declared.digest.Digest.{Digest as DigestValue};
ghost use Rattle.tl_types.specs.declared.file_id.FileId.{FileId as FileValue};
ghost use Rattle.tl_types.specs.declared.outcome.Outcome.{Outcome as OutcomeValue};
ghost use Rattle.tl_types.specs.declared.record_id.RecordId.{RecordId as RecordValue};
ghost use Rattle.tl_types.specs.declared.worker_id.WorkerId.{WorkerId as WorkerValue};

use crate::file_id::FileId;

/// Each test of equality that definitions use is true exactly where its two values are equal.
pub fn same_is_equal()
    ensures record { (a b : RecordValue) → Decides (record_same a b) (a ≡ b) }
    ensures file { (a b : FileValue) → Decides (file_same a b) (a ≡ b) }
    ensures worker { (a b : WorkerValue) → Decides (worker_same a b) (a ≡ b) }
    ensures actor { (a b : ActorValue) → Decides (actor_same a b) (a ≡ b) }
    ensures digest { (a b : DigestValue) → Decides (digest_same a b) (a ≡ b) }
    ensures path { (a b : List (List ℕ)) → Decides (path_same a b) (a ≡ b) }
    ensures outcome { (a b : OutcomeValue) → Decides (outcome_same a b) (a ≡ b) }
{}

/// Files are equal where record and output are, and are ordered by record, then by output.
pub fn file_order()
    ensures equal { (a b : FileValue) → ⟦<FileId as PartialEq>⟧.eq a b ≡ file_same a b }
    ensures order { (a b : FileValue) → ⟦<FileId as Ord>⟧.cmp a b ≡ file_cmp a b }
{}
