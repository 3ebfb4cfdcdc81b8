//! The rows of a table that is one text: each is a line of numbers, with a `|` after each, and a text.

use tl_text::read_number;

/// The number at the front of a row, and what stands after its `|`.
pub fn numbered(row: &[u8]) -> Option<(u8, &[u8])> {
    let Ok((number, after)) = read_number(row, 0) else {
        return None;
    };
    match row.get(after..) {
        Some([b'|', rest @ ..]) => Some((u8::try_from(number).ok()?, rest)),
        _ => None,
    }
}

/// Two numbers and the text of a row.
pub fn twice_numbered(row: &[u8]) -> Option<(u8, u8, &[u8])> {
    let (first, rest) = numbered(row)?;
    let (second, text) = numbered(rest)?;
    Some((first, second, text))
}
