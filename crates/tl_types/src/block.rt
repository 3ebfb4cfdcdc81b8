ghost use Rattle.std.specs.Prelude.{◌≡◌};
ghost use Rattle.tl_types.specs.Outcome.{digest_of};

use crate::bytes::Bytes;
use crate::digest::{Digest, sha256_digest};
use crate::file_id::FileId;
use crate::outcome::Outcome;
use std::marker::Model;

/// A file with what it holds and the digest of this. Contracts see its file and its outcome; the
/// digest is always that of the outcome.
#[derive(Debug, Drop)]
pub struct Block {
    file: FileId,
    outcome: Outcome,
    digest: Digest,
}

impl Model for Block {
    ghost use Rattle.std.specs.Prelude.{◌≡◌};
    ghost use Rattle.tl_types.specs.Block.{FileOutcome};
    ghost use Rattle.tl_types.specs.Outcome.{digest_of};

    ghost Value = { FileOutcome };

    ghost view = { λ b. record { file = b.file; outcome = b.outcome } };

    ghost invariant = { λ b. b.digest.0 ≡ digest_of b.outcome };
}

impl Block {
    /// The block of this file and outcome, with its digest.
    pub fn new(file: FileId, outcome: Outcome) -> Block
        ensures file { result.file ≡ file }
        ensures outcome { result.outcome ≡ outcome }
    {
        let digest = outcome_digest(&outcome);
        Block {
            file,
            outcome,
            digest,
        }
    }

    pub fn file(&self) -> FileId
        ensures { result ≡ self.now.file }
    {
        self.file
    }

    pub fn outcome(&self) -> &Outcome
        ensures { result.now ≡ self.now.outcome }
    {
        &self.outcome
    }

    /// SHA-256 of the value; of a fault 31 zero bytes and then its code.
    pub fn digest(&self) -> Digest
        ensures { result.0 ≡ digest_of self.now.outcome }
    {
        self.digest
    }

    /// The outcome alone.
    pub fn into_outcome(self) -> Outcome
        ensures { result ≡ self.outcome }
    {
        let Block { outcome, .. } = self;
        outcome
    }
}

/// The digest of an outcome: SHA-256 of its value; of a fault 31 zero bytes and then its code.
pub fn outcome_digest(outcome: &Outcome) -> Digest
    ensures { result.0 ≡ digest_of outcome.now }
{
    match outcome {
        Outcome::Value(bytes) => sha256_digest(bytes.as_slice()),
        Outcome::Fault(code) => fault_digest(*code),
    }
}

// 31 zero bytes and then the code.
fn fault_digest(code: u8) -> Digest
    ensures { result.0 ≡ digest_of (Outcome.Fault code) }
{
    let mut bytes = [0u8; 32];
    bytes[31] = code;
    Digest(bytes)
}
