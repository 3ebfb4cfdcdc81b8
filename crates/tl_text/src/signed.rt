//! Signed numbers in decimal: a number, or `-` and a number other than 0.

ghost use Rattle.std.specs.Prelude.{◌≡◌, ℕ, ◌+◌, ◌-◌, ◌<◌, ◌≤◌, ℤ, negsuc, List, ◌∷◌, ◌++◌, length, drop, IfOk, IfErr, OnOk, OnErr};
ghost use Rattle.std.specs.Fmt.{signed_decimal};
ghost use Rattle.tl_text.specs.Place.{IsFirstBad, HasOneReading};
ghost use Rattle.tl_text.specs.Refusal.{IsRefusal};
ghost use Rattle.tl_text.specs.Signed.{IsSigned};

use crate::error::{TextError, TextKind};
use crate::number::number_front;
use itoa::Buffer;
use tl_types::NoMemory;

// The number as far below 0 as the magnitude is above.
fn negated(magnitude: u64) -> i64
    requires above { 0 < magnitude }
    requires fits { magnitude ≤ 9223372036854775808 }
    ensures { result ≡ negsuc (magnitude - 1) }
{
    -1 - (magnitude - 1) as i64
}

// The number that `-` and the digits at the front of a text spell, and how many digits it takes, or
// the place in them of the first byte that none allows.
fn negative_front(digits: &[u8]) -> Result<(i64, usize), usize>
    ensures found { IfOk result (λ r. IsSigned (0x2D ∷ digits.now) r.0 (drop r.1 digits.now)) }
    ensures length { IfOk result (λ r. r.1 + 1 ≡ length (signed_decimal r.0)) }
    ensures bad { IfErr result (λ place. IsFirstBad IsSigned (0x2D ∷ digits.now) (place + 1)) }
{
    if digits.is_empty() {
        return Err(0);
    }
    if digits[0] == b'0' {
        return Err(0);
    }
    match number_front(digits, 1 << 63) {
        Ok((magnitude, len)) => Ok((negated(magnitude), len)),
        Err(place) => Err(place),
    }
}

// The signed number at the front of a text and how many bytes it takes, or the place of the first
// byte that none allows.
fn signed_front(text: &[u8]) -> Result<(i64, usize), usize>
    ensures found { IfOk result (λ r. IsSigned text.now r.0 (drop r.1 text.now)) }
    ensures length { IfOk result (λ r. r.1 ≡ length (signed_decimal r.0)) }
    ensures bad { IfErr result (IsFirstBad IsSigned text.now) }
{
    match text {
        [] => Err(0),
        [b'-', digits @ ..] => match negative_front(digits) {
            Ok((number, len)) => Ok((number, len + 1)),
            Err(place) => Err(place + 1),
        },
        [_, ..] => match number_front(text, i64::MAX as u64) {
            Ok((number, len)) => Ok((number as i64, len)),
            Err(place) => Err(place),
        },
    }
}

/// The signed number that stands in `text` at `at`, all digits of it, and the place after it. The
/// refusal is `TextKind::BadNumber`.
pub fn read_signed(text: &[u8], at: usize) -> Result<(i64, usize), TextError>
    requires { at ≤ length text.now }
    ensures found { IfOk result (λ r. IsSigned (drop at text.now) r.0 (drop r.1 text.now)) }
    ensures place { IfOk result (λ r. r.1 ≡ at + length (signed_decimal r.0)) }
    ensures only { (z : ℤ) (rest : List ℕ) → IsSigned (drop at text.now) z rest → result ≡ Ok (z, at + length (signed_decimal z)) }
    ensures bad { IfErr result (IsRefusal IsSigned TextKind.BadNumber text.now at) }
{
    match signed_front(&text[at..]) {
        Ok((number, len)) => Ok((number, at + len)),
        Err(offset) => Err(TextError::Bad {
            at: at + offset,
            kind: TextKind::BadNumber,
        }),
    }
}

/// Appends the number in decimal. An `Err` leaves `out` as it was.
pub fn print_signed(out: &mut Vec<u8>, n: i64) -> Result<(), NoMemory>
    ensures ok { OnOk result (out.new.items ≡ out.old.items ++ signed_decimal n) }
    ensures err { OnErr result (out.new.items ≡ out.old.items) }
{
    let mut buffer = Buffer::new();
    out.extend_from_slice(buffer.format(n).as_bytes())?;
    Ok(())
}

/// A signed number's spelling begins no other: where no digit follows it, it is read again.
pub fn one_signed()
    ensures { HasOneReading IsSigned }
{}
