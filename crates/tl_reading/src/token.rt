//! The words of an event that are numbers, files and digests. A reader is given what stands behind
//! the word's space, and hands out what stands behind the space after it.

ghost use Rattle.std.specs.Prelude.{◌≡◌, ◌≢◌, ◌<◌, ◌≤◌, ◌^◌, ◌∷◌, ◌++◌, ℕ, List, decimal, IfSome, IfNone};
ghost use Rattle.hex.specs.Hex.{encode_lower};
ghost use Rattle.tl_types.specs.declared.actor.Actor.{Actor};
ghost use Rattle.tl_types.specs.declared.digest.Digest.{Digest};
ghost use Rattle.tl_types.specs.declared.file_id.FileId.{FileId};
ghost use Rattle.tl_types.specs.declared.record_id.RecordId.{RecordId};
ghost use Rattle.tl_types.specs.declared.worker_id.WorkerId.{WorkerId};
ghost use Rattle.tl_text.specs.File.{file_text};
ghost use Rattle.tl_text.specs.Number.{BeginsWithNoDigit};
ghost use Rattle.tl_spelling.specs.Shown.{IsRecord, IsWorker, IsFile, IsSum};

use tl_script::{after, front_of, number_at};
use tl_text::{read_digest, read_number};
use tl_types::{Actor, Digest, FileId, RecordId, WorkerId};

/// How many numbers of records there are.
const RECORDS: u64 = 4_294_967_296;

/// How many numbers of workers and of outputs there are.
const BYTES: u64 = 256;

/// How many actors there are.
const ACTORS: u64 = 16;

// The number below `below` that stands before a space, and what stands behind that.
fn number_before(text: &[u8], below: u64) -> Option<(u64, &[u8])>
    ensures within { IfSome result (λ r. r.0 < below) }
    ensures found { IfSome result (λ r. text.now ≡ decimal r.0 ++ 0x20 ∷ r.1.now) }
    ensures none { IfNone result ((n : ℕ) (rest : List ℕ) → n < below
        → text.now ≢ decimal n ++ 0x20 ∷ rest) }
{
    let (number, rest) = number_at(text, 0, below)?;
    let front = front_of(rest)?;
    Some((number, front))
}

// The number that stands before the mark, and what stands behind that.
fn number_until<'a>(text: &'a [u8], mark: &[u8]) -> Option<(u64, &'a [u8])>
    requires { (rest : List ℕ) → BeginsWithNoDigit (mark.now ++ rest) }
    ensures within { IfSome result (λ r. r.0 < 2 ^ 64) }
    ensures found { IfSome result (λ r. text.now ≡ decimal r.0 ++ (mark.now ++ r.1.now)) }
    ensures none { IfNone result ((n : ℕ) (rest : List ℕ) → n < 2 ^ 64
        → text.now ≢ decimal n ++ (mark.now ++ rest)) }
{
    let Ok((number, end)) = read_number(text, 0) else {
        return None;
    };
    let (_, rest) = text.split_at(end);
    let rest = after(rest, mark)?;
    Some((number, rest))
}

/// The number that stands before a space, and what stands behind that.
pub fn count_before(text: &[u8]) -> Option<(u64, &[u8])>
    ensures within { IfSome result (λ r. r.0 < 2 ^ 64) }
    ensures found { IfSome result (λ r. text.now ≡ decimal r.0 ++ 0x20 ∷ r.1.now) }
    ensures none { IfNone result ((n : ℕ) (rest : List ℕ) → n < 2 ^ 64
        → text.now ≢ decimal n ++ 0x20 ∷ rest) }
{
    number_until(text, b" ")
}

/// The number that stands before a line feed, and what stands behind that.
pub fn number_line(text: &[u8]) -> Option<(u64, &[u8])>
    ensures within { IfSome result (λ r. r.0 < 2 ^ 64) }
    ensures found { IfSome result (λ r. text.now ≡ decimal r.0 ++ 10 ∷ r.1.now) }
    ensures none { IfNone result ((n : ℕ) (rest : List ℕ) → n < 2 ^ 64
        → text.now ≢ decimal n ++ 10 ∷ rest) }
{
    number_until(text, b"\n")
}

// The number below `below` that the text is.
fn number_last(text: &[u8], below: u64) -> Option<u64>
    ensures within { IfSome result (λ n. n < below) }
    ensures found { IfSome result (λ n. text.now ≡ decimal n) }
    ensures none { IfNone result ((n : ℕ) → n < below → text.now ≢ decimal n) }
{
    let (number, rest) = number_at(text, 0, below)?;
    if !rest.is_empty() {
        return None;
    }
    Some(number)
}

// The record's number that stands before a dot, and what stands behind that.
fn dotted(text: &[u8]) -> Option<(u32, &[u8])>
    ensures within { IfSome result (λ r. r.0 < 2 ^ 32) }
    ensures found { IfSome result (λ r. text.now ≡ decimal r.0 ++ 0x2E ∷ r.1.now) }
    ensures none { IfNone result ((n : ℕ) (rest : List ℕ) → n < 2 ^ 32
        → text.now ≢ decimal n ++ 0x2E ∷ rest) }
{
    let (number, rest) = number_until(text, b".")?;
    if number >= RECORDS {
        return None;
    }
    Some((number as u32, rest))
}

/// The record's number that the text is.
pub fn record_last(text: &[u8]) -> Option<RecordId>
    ensures within { IfSome result IsRecord }
    ensures found { IfSome result (λ made. text.now ≡ decimal made.0) }
    ensures none { IfNone result ((made : RecordId) → IsRecord made → text.now ≢ decimal made.0) }
{
    let number = number_last(text, RECORDS)?;
    Some(RecordId(number as u32))
}

/// The actor's number that stands before a space, and what stands behind that.
pub fn actor_before(text: &[u8]) -> Option<(Actor, &[u8])>
    ensures within { IfSome result (λ r. r.0.0 ≤ 15) }
    ensures found { IfSome result (λ r. text.now ≡ decimal r.0.0 ++ 0x20 ∷ r.1.now) }
    ensures none { IfNone result ((actor : Actor) (rest : List ℕ) → actor.0 ≤ 15
        → text.now ≢ decimal actor.0 ++ 0x20 ∷ rest) }
{
    let (number, rest) = number_before(text, ACTORS)?;
    Some((Actor(number as u8), rest))
}

/// The record's number that stands before a space, and what stands behind that.
pub fn record_before(text: &[u8]) -> Option<(RecordId, &[u8])>
    ensures within { IfSome result (λ r. IsRecord r.0) }
    ensures found { IfSome result (λ r. text.now ≡ decimal r.0.0 ++ 0x20 ∷ r.1.now) }
    ensures none { IfNone result ((made : RecordId) (rest : List ℕ) → IsRecord made
        → text.now ≢ decimal made.0 ++ 0x20 ∷ rest) }
{
    let (number, rest) = number_before(text, RECORDS)?;
    Some((RecordId(number as u32), rest))
}

/// The worker's number that the text is.
pub fn worker_last(text: &[u8]) -> Option<WorkerId>
    ensures within { IfSome result IsWorker }
    ensures found { IfSome result (λ worker. text.now ≡ decimal worker.0) }
    ensures none { IfNone result ((worker : WorkerId) → IsWorker worker
        → text.now ≢ decimal worker.0) }
{
    let number = number_last(text, BYTES)?;
    Some(WorkerId(number as u8))
}

/// The worker's number that stands before a space, and what stands behind that.
pub fn worker_before(text: &[u8]) -> Option<(WorkerId, &[u8])>
    ensures within { IfSome result (λ r. IsWorker r.0) }
    ensures found { IfSome result (λ r. text.now ≡ decimal r.0.0 ++ 0x20 ∷ r.1.now) }
    ensures none { IfNone result ((worker : WorkerId) (rest : List ℕ) → IsWorker worker
        → text.now ≢ decimal worker.0 ++ 0x20 ∷ rest) }
{
    let (number, rest) = number_before(text, BYTES)?;
    Some((WorkerId(number as u8), rest))
}

/// The file that the text is.
pub fn file_last(text: &[u8]) -> Option<FileId>
    ensures within { IfSome result IsFile }
    ensures found { IfSome result (λ file. text.now ≡ file_text file) }
    ensures none { IfNone result ((file : FileId) → IsFile file → text.now ≢ file_text file) }
{
    let (made, rest) = dotted(text)?;
    let out = number_last(rest, BYTES)?;
    Some(FileId {
        rec: RecordId(made),
        out: out as u8,
    })
}

/// The file that stands before a space, and what stands behind that.
pub fn file_before(text: &[u8]) -> Option<(FileId, &[u8])>
    ensures within { IfSome result (λ r. IsFile r.0) }
    ensures found { IfSome result (λ r. text.now ≡ file_text r.0 ++ 0x20 ∷ r.1.now) }
    ensures none { IfNone result ((file : FileId) (rest : List ℕ) → IsFile file
        → text.now ≢ file_text file ++ 0x20 ∷ rest) }
{
    let (made, rest) = dotted(text)?;
    let (out, rest) = number_before(rest, BYTES)?;
    let file = FileId {
        rec: RecordId(made),
        out: out as u8,
    };
    Some((file, rest))
}

/// The digest that the text is.
pub fn digest_last(text: &[u8]) -> Option<Digest>
    ensures within { IfSome result IsSum }
    ensures found { IfSome result (λ digest. text.now ≡ encode_lower digest.0) }
    ensures none { IfNone result ((digest : Digest) → IsSum digest
        → text.now ≢ encode_lower digest.0) }
{
    let Ok((digest, end)) = read_digest(text, 0) else {
        return None;
    };
    if end != text.len() {
        return None;
    }
    Some(digest)
}
