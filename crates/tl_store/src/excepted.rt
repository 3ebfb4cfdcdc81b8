ghost use Rattle.std.specs.Prelude.{◌≡◌, Bool};
ghost use Rattle.tl_types.specs.declared.file_id.FileId.{FileId as FileValue};

use tl_types::FileId;

/// The files that may not be evicted.
pub trait Excepted {
    // Whether a file is excepted.
    ghost excepted: { Self → FileValue → Bool };

    /// Whether `f` is excepted.
    fn holds(&self, f: FileId) -> bool
        ensures { result ≡ excepted self.now f };
}
