use std::marker::Model;
use tl_types::Digest;

/// The size and the digest with which a file was saved.
#[derive(Clone, Copy, Debug)]
pub struct SavedAs {
    size: u64,
    digest: Digest,
}

impl Model for SavedAs {
    ghost use Rattle.tl_model.specs.Residency.{SavedAs as Known};

    ghost Value = { Known };

    ghost view = { λ s. record { size = s.size; digest = s.digest } };

    ghost inverse = { λ s. record { size = s.size; digest = s.digest } };
}

impl SavedAs {
    ghost use Rattle.std.specs.Prelude.{◌≡◌};

    pub(crate) fn new(size: u64, digest: Digest) -> SavedAs
        ensures { result ≡ record { size = size; digest = digest } }
    {
        SavedAs { size, digest }
    }

    /// The length of the file's bytes.
    pub fn size(&self) -> u64
        ensures { result ≡ self.now.size }
    {
        self.size
    }

    /// The digest of the file's bytes.
    pub fn digest(&self) -> Digest
        ensures { result ≡ self.now.digest }
    {
        self.digest
    }
}
