//! The acts that are no calls, each read behind its word.

ghost use Rattle.std.specs.Prelude.{◌≡◌, ◌≢◌, ◌∷◌, ◌++◌, ℕ, List, decimal, IfSome, IfNone};
ghost use Rattle.hex.specs.Hex.{encode_lower};
ghost use Rattle.tl_types.specs.declared.digest.Digest.{Digest};
ghost use Rattle.tl_types.specs.declared.file_id.FileId.{FileId};
ghost use Rattle.tl_types.specs.declared.record_id.RecordId.{RecordId};
ghost use Rattle.tl_types.specs.declared.worker_id.WorkerId.{WorkerId};
ghost use Rattle.tl_text.specs.File.{file_text};
ghost use Rattle.tl_model.specs.declared.event.Act.{Act};
ghost use Rattle.tl_model.specs.declared.header.Header.{Header};
ghost use Rattle.tl_spelling.specs.Shown.{IsRecord, IsWorker, IsFile, IsSum, IsAct, shown_act};
ghost use Rattle.tl_reading.specs.Acts.{about, deed_of};
ghost use Rattle.tl_reading.specs.declared.deed.Deed.TheVariants as deed;

use crate::deed::Deed;
use crate::token::{digest_last, file_before, file_last, record_last, worker_before, worker_last};
use tl_model::Act;
use tl_types::{Bytes, Digest, FileId, RecordId, WorkerId};

/// The digest that stands for one that is not shown.
const HIDDEN: Digest = Digest([0; 32]);

// The worker and the record that the text is.
fn job_said(text: &[u8]) -> Option<(WorkerId, RecordId)>
    ensures within { IfSome result (λ r. IsWorker r.0 × IsRecord r.1) }
    ensures found { IfSome result (λ r. text.now ≡ decimal r.0.0 ++ 0x20 ∷ decimal r.1.0) }
    ensures none { IfNone result ((worker : WorkerId) (made : RecordId) → IsWorker worker
        → IsRecord made → text.now ≢ decimal worker.0 ++ 0x20 ∷ decimal made.0) }
{
    let (worker, rest) = worker_before(text)?;
    let made = record_last(rest)?;
    Some((worker, made))
}

// The worker and the file that the text is.
fn block_said(text: &[u8]) -> Option<(WorkerId, FileId)>
    ensures within { IfSome result (λ r. IsWorker r.0 × IsFile r.1) }
    ensures found { IfSome result (λ r. text.now ≡ decimal r.0.0 ++ 0x20 ∷ file_text r.1) }
    ensures none { IfNone result ((worker : WorkerId) (file : FileId) → IsWorker worker
        → IsFile file → text.now ≢ decimal worker.0 ++ 0x20 ∷ file_text file) }
{
    let (worker, rest) = worker_before(text)?;
    let file = file_last(rest)?;
    Some((worker, file))
}

// The file and the digest that the text is.
fn served_said(text: &[u8]) -> Option<(FileId, Digest)>
    ensures within { IfSome result (λ r. IsFile r.0 × IsSum r.1) }
    ensures found { IfSome result (λ r. text.now ≡ file_text r.0 ++ 0x20 ∷ encode_lower r.1.0) }
    ensures none { IfNone result ((file : FileId) (digest : Digest) → IsFile file
        → IsSum digest → text.now ≢ file_text file ++ 0x20 ∷ encode_lower digest.0) }
{
    let (file, rest) = file_before(text)?;
    let digest = digest_last(rest)?;
    Some((file, digest))
}

/// The act of this word that the text says behind the word and a space; `None` for a call. The size
/// and the digest of what was saved are not said: 0 and zeros stand for them.
pub fn act_said(word: Deed, text: &[u8]) -> Option<Act<Bytes>>
    ensures word { IfSome result (λ act. deed_of act ≡ word) }
    ensures within { IfSome result (λ act. (header : Header) → IsAct header act) }
    ensures found { IfSome result (λ act. text.now ≡ about act) }
    ensures shown { IfSome result (λ act. shown_act act ≡ act) }
    ensures none { IfNone result ((header : Header) (act : Act (List ℕ)) → word ≢ deed.Call
        → deed_of act ≡ word → IsAct header act → text.now ≢ about act) }
{
    match word {
        Deed::Call => None,
        Deed::Served => {
            let (file, digest) = served_said(text)?;
            Some(Act::Served(file, digest))
        }
        Deed::Shut => Some(Act::Shut(file_last(text)?)),
        Deed::Claim => {
            let (worker, made) = job_said(text)?;
            Some(Act::Claim(worker, made))
        }
        Deed::Done => {
            let (worker, made) = job_said(text)?;
            Some(Act::Done(worker, made))
        }
        Deed::Back => Some(Act::Back(record_last(text)?)),
        Deed::Lose => Some(Act::Lose(worker_last(text)?)),
        Deed::Free => Some(Act::Free(file_last(text)?)),
        Deed::Drop => {
            let (worker, file) = block_said(text)?;
            Some(Act::Drop(worker, file))
        }
        Deed::Load => {
            let (worker, file) = block_said(text)?;
            Some(Act::Load(worker, file))
        }
        Deed::Save => Some(Act::Save(file_last(text)?)),
        Deed::Saved => Some(Act::Saved(file_last(text)?, 0, HIDDEN)),
        Deed::Unsave => Some(Act::Unsave(file_last(text)?)),
        Deed::Collect => Some(Act::Collect(record_last(text)?)),
    }
}
