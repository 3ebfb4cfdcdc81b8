//! Numbers in decimal: `0`, or a digit 1 to 9 followed by digits.

ghost use Rattle.std.specs.Prelude.{◌≡◌, ℕ, ◌+◌, ◌*◌, ◌<◌, ◌≤◌, List, ◌++◌, length, drop, IfOk, IfErr, OnOk, OnErr};
ghost use Rattle.std.specs.Fmt.{decimal};
ghost use Rattle.std.specs.Option.{SomeIff};
ghost use Rattle.tl_text.specs.Number.{IsNumber};
ghost use Rattle.tl_text.specs.Place.{IsFirstBad, HasOneReading};
ghost use Rattle.tl_text.specs.Refusal.{IsRefusal};

use crate::error::{TextError, TextKind};
use itoa::Buffer;
use tl_types::NoMemory;

// The number with one more digit, where it is at most the limit.
fn with_digit(number: u64, digit: u8, limit: u64) -> Option<u64>
    requires { digit < 10 }
    ensures { SomeIff result (number * 10 + digit ≤ limit) (number * 10 + digit) }
{
    let next = number.checked_mul(10)?.checked_add(u64::from(digit))?;
    if next <= limit { Some(next) } else { None }
}

// The number of at most `limit` at the front of a text and how many bytes it takes, or the place of
// the first byte that no such number allows.
pub(crate) fn number_front(text: &[u8], limit: u64) -> Result<(u64, usize), usize>
    ensures found { IfOk result (λ r. IsNumber limit text.now r.0 (drop r.1 text.now)) }
    ensures length { IfOk result (λ r. r.1 ≡ length (decimal r.0)) }
    ensures bad { IfErr result (IsFirstBad (IsNumber limit) text.now) }
{
    let mut number = 0;
    for (place, byte) in text.iter().enumerate() {
        if !byte.is_ascii_digit() {
            return if place == 0 {
                Err(0)
            } else {
                Ok((number, place))
            };
        }
        if place > 0 && number == 0 {
            return Err(place);
        }
        match with_digit(number, *byte - b'0', limit) {
            None => return Err(place),
            Some(next) => number = next,
        }
    }
    if text.is_empty() {
        return Err(0);
    }
    Ok((number, text.len()))
}

/// The number that stands in `text` at `at`, all digits of it, and the place after it. It is written
/// with no leading zero and is at most `u64::MAX`, else the refusal is `TextKind::BadNumber`.
pub fn read_number(text: &[u8], at: usize) -> Result<(u64, usize), TextError>
    requires { at ≤ length text.now }
    ensures found { IfOk result (λ r. IsNumber 18446744073709551615 (drop at text.now) r.0 (drop r.1 text.now)) }
    ensures place { IfOk result (λ r. r.1 ≡ at + length (decimal r.0)) }
    ensures only { (n : ℕ) (rest : List ℕ) → IsNumber 18446744073709551615 (drop at text.now) n rest → result ≡ Ok (n, at + length (decimal n)) }
    ensures bad { IfErr result (IsRefusal (IsNumber 18446744073709551615) TextKind.BadNumber text.now at) }
{
    match number_front(&text[at..], u64::MAX) {
        Ok((number, len)) => Ok((number, at + len)),
        Err(offset) => Err(TextError::Bad {
            at: at + offset,
            kind: TextKind::BadNumber,
        }),
    }
}

/// Appends the number in decimal. An `Err` leaves `out` as it was.
pub fn print_number(out: &mut Vec<u8>, n: u64) -> Result<(), NoMemory>
    ensures ok { OnOk result (out.new.items ≡ out.old.items ++ decimal n) }
    ensures err { OnErr result (out.new.items ≡ out.old.items) }
{
    let mut buffer = Buffer::new();
    out.extend_from_slice(buffer.format(n).as_bytes())?;
    Ok(())
}

/// A number's spelling begins no other: where no digit follows it, it is read again.
pub fn one_number()
    ensures { HasOneReading (IsNumber 18446744073709551615) }
{}
