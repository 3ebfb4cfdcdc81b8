//! The words of a command.

ghost use Rattle.std.specs.Prelude.{◌≡◌, ◌≢◌, map, IfSome, IfNone};
ghost use Rattle.tl_script.specs.Words.{verb_text, mark_text, found_in};

/// The word that a command begins with.
#[derive(Clone, Copy)]
pub(crate) enum Verb {
    Put,
    Job,
    Cat,
    Sum,
    Try,
    Delete,
    Mkdir,
    Rename,
    Pin,
    Unpin,
    List,
    Stat,
    Free,
    Lose,
    Work,
}

/// A word between the arguments of a job.
#[derive(Clone, Copy)]
pub(crate) enum Mark {
    Conf,
    In,
    Out,
    Run,
}

const VERBS: [(&[u8], Verb); 15] = [
    (b"put", Verb::Put),
    (b"job", Verb::Job),
    (b"cat", Verb::Cat),
    (b"sum", Verb::Sum),
    (b"try", Verb::Try),
    (b"delete", Verb::Delete),
    (b"mkdir", Verb::Mkdir),
    (b"rename", Verb::Rename),
    (b"pin", Verb::Pin),
    (b"unpin", Verb::Unpin),
    (b"list", Verb::List),
    (b"stat", Verb::Stat),
    (b"free", Verb::Free),
    (b"lose", Verb::Lose),
    (b"work", Verb::Work),
];

impl Mark {
    /// How the word is spelled.
    pub(crate) fn text(self) -> &'static [u8]
        ensures { result.now ≡ mark_text self }
    {
        match self {
            Mark::Conf => b"conf",
            Mark::In => b"in",
            Mark::Out => b"out",
            Mark::Run => b"run",
        }
    }
}

// The word that the table has for these bytes.
fn find_verb(mut table: &[(&[u8], Verb)], word: &[u8]) -> Option<Verb>
    ensures { result ≡ found_in (map (λ entry. (entry.0.now, entry.1)) table.entry.now) word.now }
{
    while let [entry, rest @ ..] = table {
        if entry.0 == word {
            return Some(entry.1);
        }
        table = rest;
    }
    None
}

/// The word that these bytes spell.
pub(crate) fn verb_of(word: &[u8]) -> Option<Verb>
    ensures found { IfSome result (λ v. word.now ≡ verb_text v) }
    ensures none { IfNone result ((v : Verb) → word.now ≢ verb_text v) }
{
    find_verb(&VERBS, word)
}
