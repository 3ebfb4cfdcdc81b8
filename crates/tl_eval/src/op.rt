/// A form with one part, of which the value decides.
#[derive(Clone, Copy, Debug, PartialEq, Eq)]
pub enum Unary {
    Len,
    Num,
    Str,
    Lines,
    Count,
    Sort,
}

/// A form with two parts, of which the values decide.
#[derive(Clone, Copy, Debug, PartialEq, Eq)]
pub enum Binary {
    Texts(OnTexts),
    Numbers(OnNumbers),
    ListText(OnListText),
    At,
}

/// A form on two texts.
#[derive(Clone, Copy, Debug, PartialEq, Eq)]
pub enum OnTexts {
    Cat,
    Eq,
    Has,
    Split,
}

/// A form on two numbers.
#[derive(Clone, Copy, Debug, PartialEq, Eq)]
pub enum OnNumbers {
    Add,
    Minus,
    Mul,
    Div,
    Mod,
    Lt,
    Same,
}

/// A form on a list and a text.
#[derive(Clone, Copy, Debug, PartialEq, Eq)]
pub enum OnListText {
    Join,
    Append,
}
