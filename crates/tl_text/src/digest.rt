//! Digests as 64 hexadecimal digits in lower case.

ghost use Rattle.std.specs.Prelude.{◌≡◌, ℕ, ◌+◌, ◌≤◌, List, ◌++◌, length, drop, IfOk, IfErr, IsOkAnd, OnOk, OnErr};
ghost use Rattle.hex.specs.Hex.{encode_lower};
ghost use Rattle.tl_text.specs.Digest.{IsDigest};
ghost use Rattle.tl_text.specs.Place.{IsFirstBad, HasOneReading};
ghost use Rattle.tl_text.specs.Refusal.{IsRefusal};

use crate::error::{TextError, TextKind};
use crate::hex_digit::digit_at;
use tl_types::{Digest, NoMemory};

// The digest at the front of a text, which takes 64 bytes, or the place of the first byte that no
// digest allows.
fn digest_front(text: &[u8]) -> Result<Digest, usize>
    ensures found { IfOk result (λ digest. IsDigest text.now digest.0 (drop 64 text.now)) }
    ensures bad { IfErr result (IsFirstBad IsDigest text.now) }
{
    for place in 0..64usize {
        let Some(_) = digit_at(text, place) else {
            return Err(place);
        };
    }
    let mut bytes = [0; 32];
    hex::decode_to_slice(&text[..64], &mut bytes).unwrap();
    Ok(Digest(bytes))
}

/// The digest that stands in `text` at `at`, and the place after it. The refusal is
/// `TextKind::BadDigest`.
pub fn read_digest(text: &[u8], at: usize) -> Result<(Digest, usize), TextError>
    requires { at ≤ length text.now }
    ensures found { IfOk result (λ r. IsDigest (drop at text.now) r.0.0 (drop r.1 text.now)) }
    ensures place { IfOk result (λ r. r.1 ≡ at + 64) }
    ensures only { (bytes rest : List ℕ) → IsDigest (drop at text.now) bytes rest → IsOkAnd result (λ r. (r.0.0 ≡ bytes) × (r.1 ≡ at + 64)) }
    ensures bad { IfErr result (IsRefusal IsDigest TextKind.BadDigest text.now at) }
{
    match digest_front(&text[at..]) {
        Ok(digest) => Ok((digest, at + 64)),
        Err(offset) => Err(TextError::Bad {
            at: at + offset,
            kind: TextKind::BadDigest,
        }),
    }
}

/// Appends the digest in hexadecimal. An `Err` leaves `out` as it was.
pub fn print_digest(out: &mut Vec<u8>, digest: &Digest) -> Result<(), NoMemory>
    ensures ok { OnOk result (out.new.items ≡ out.old.items ++ encode_lower digest.now.0) }
    ensures err { OnErr result (out.new.items ≡ out.old.items) }
{
    let mut text = [0; 64];
    hex::encode_to_slice(digest.0.as_slice(), &mut text).unwrap();
    out.extend_from_slice(&text)?;
    Ok(())
}

/// A digest's spelling begins no other: whatever follows it, it is read again.
pub fn one_digest()
    ensures { HasOneReading IsDigest }
{}
