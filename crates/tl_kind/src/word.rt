//! The words of the forms, by what parts the forms have.

ghost use Rattle.std.specs.Prelude.{◌≡◌, ◌≢◌, map, IfSome, IfNone};
ghost use Rattle.tl_kind.specs.Words.{word_text, found_in};

/// Forms with one expression.
#[derive(Clone, Copy)]
pub(crate) enum One {
    Len,
    Num,
    Str,
    Lines,
    Count,
    Sort,
}

/// Forms with two expressions.
#[derive(Clone, Copy)]
pub(crate) enum Two {
    Cat,
    Eq,
    Has,
    Add,
    Minus,
    Mul,
    Div,
    Mod,
    Lt,
    Same,
    Split,
    Join,
    Append,
    At,
}

/// Forms with three expressions.
#[derive(Clone, Copy)]
pub(crate) enum Three {
    Sub,
    If,
}

/// Forms with a name and two expressions.
#[derive(Clone, Copy)]
pub(crate) enum Binding {
    Let,
    Each,
    Keep,
}

/// The word of a form.
#[derive(Clone, Copy)]
pub(crate) enum Word {
    Input,
    Key,
    One(One),
    Two(Two),
    Three(Three),
    Binding(Binding),
    Fold,
    List,
}

const WORDS: [(&[u8], Word); 29] = [
    (b"in", Word::Input),
    (b"conf", Word::Key),
    (b"cat", Word::Two(Two::Cat)),
    (b"len", Word::One(One::Len)),
    (b"sub", Word::Three(Three::Sub)),
    (b"eq", Word::Two(Two::Eq)),
    (b"has", Word::Two(Two::Has)),
    (b"num", Word::One(One::Num)),
    (b"str", Word::One(One::Str)),
    (b"add", Word::Two(Two::Add)),
    (b"minus", Word::Two(Two::Minus)),
    (b"mul", Word::Two(Two::Mul)),
    (b"div", Word::Two(Two::Div)),
    (b"mod", Word::Two(Two::Mod)),
    (b"lt", Word::Two(Two::Lt)),
    (b"same", Word::Two(Two::Same)),
    (b"if", Word::Three(Three::If)),
    (b"let", Word::Binding(Binding::Let)),
    (b"lines", Word::One(One::Lines)),
    (b"split", Word::Two(Two::Split)),
    (b"join", Word::Two(Two::Join)),
    (b"list", Word::List),
    (b"append", Word::Two(Two::Append)),
    (b"at", Word::Two(Two::At)),
    (b"count", Word::One(One::Count)),
    (b"sort", Word::One(One::Sort)),
    (b"each", Word::Binding(Binding::Each)),
    (b"keep", Word::Binding(Binding::Keep)),
    (b"fold", Word::Fold),
];

// The word that these letters spell in the table.
fn find_word(mut table: &[(&[u8], Word)], letters: &[u8]) -> Option<Word>
    ensures { result ≡ found_in (map (λ entry. (entry.0.now, entry.1)) table.entry.now) letters.now }
{
    while let [entry, rest @ ..] = table {
        if entry.0 == letters {
            return Some(entry.1);
        }
        table = rest;
    }
    None
}

// The word that these letters spell.
pub(crate) fn word_of(letters: &[u8]) -> Option<Word>
    ensures found { IfSome result (λ w. letters.now ≡ word_text w) }
    ensures none { IfNone result ((w : Word) → letters.now ≢ word_text w) }
{
    find_word(&WORDS, letters)
}
