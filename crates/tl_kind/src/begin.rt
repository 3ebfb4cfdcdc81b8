//! What an expression is, by its first byte.

ghost use Rattle.std.specs.Prelude.{◌≡◌, ◌∷◌, []};

/// What an expression is.
#[derive(Clone, Copy)]
pub(crate) enum Begin {
    Nothing,
    Quote,
    Number,
    Name,
    Form,
    Other,
}

ghost use Rattle.tl_kind.specs.Written.{is_letter};
ghost use Rattle.tl_kind.specs.Refusals.{is_digit};
ghost use Rattle.tl_kind.specs.Reading.{begin_of};

// Whether the byte is a lower-case letter.
pub(crate) fn is_letter(byte: u8) -> bool
    ensures { result ≡ is_letter byte }
{
    b'a' <= byte && byte <= b'z'
}

// Whether the byte is a decimal digit.
pub(crate) fn is_digit(byte: u8) -> bool
    ensures { result ≡ is_digit byte }
{
    b'0' <= byte && byte <= b'9'
}

// What an expression is that begins with this byte.
fn begin_with(byte: u8) -> Begin
    ensures { result ≡ begin_of (byte ∷ []) }
{
    if byte == b'"' {
        return Begin::Quote;
    }
    if byte == b'-' {
        return Begin::Number;
    }
    if is_digit(byte) {
        return Begin::Number;
    }
    if is_letter(byte) {
        return Begin::Name;
    }
    if byte == b'(' {
        return Begin::Form;
    }
    Begin::Other
}

// What an expression at the front of the text is.
pub(crate) fn begin_of(text: &[u8]) -> Begin
    ensures { result ≡ begin_of text.now }
{
    match text.split_first() {
        None => Begin::Nothing,
        Some((first, _)) => begin_with(*first),
    }
}
