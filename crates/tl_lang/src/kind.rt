/// What an expression gives: a text, a number or a list of texts.
#[derive(Clone, Copy, Debug, PartialEq, Eq)]
pub enum Kind {
    /// At most 1,048,576 bytes.
    Text,
    /// A 64-bit signed number.
    Number,
    /// At most 65,536 texts, which have at most 1,048,576 bytes together.
    List,
}
