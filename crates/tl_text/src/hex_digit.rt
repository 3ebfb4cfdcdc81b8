//! Hexadecimal digits in lower case.

ghost use Rattle.std.specs.Prelude.{◌≡◌, ◌≢◌, ℕ, ◌<◌, length, slice_index, IfNone, IfSome};
ghost use Rattle.tl_text.specs.HexDigit.{hex_digit};

// The value of a hexadecimal digit in lower case.
fn digit_value(digit: u8) -> Option<u8>
    ensures none { IfNone result ((n : ℕ) → n < 16 → hex_digit n ≢ digit) }
    ensures some { IfSome result (λ n. (n < 16) × (hex_digit n ≡ digit)) }
{
    match digit {
        b'0'..=b'9' => Some(digit - b'0'),
        b'a'..=b'f' => Some(digit - b'a' + 10),
        _ => None,
    }
}

// The value of the digit at a place of a text, where one stands there.
pub(crate) fn digit_at(text: &[u8], place: usize) -> Option<u8>
    ensures none { IfNone result ((n : ℕ) → n < 16 → place < length text.now → hex_digit n ≢ slice_index text.now place) }
    ensures some { IfSome result (λ n. (n < 16) × (place < length text.now) × (hex_digit n ≡ slice_index text.now place)) }
{
    if place < text.len() {
        digit_value(text[place])
    } else {
        None
    }
}
