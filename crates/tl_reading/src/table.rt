//! Words beside what each of them says.

ghost use Rattle.std.specs.Prelude.{◌≡◌, map};
ghost use Rattle.tl_reading.specs.Acts.{found_in};

/// What the table has beside these bytes.
pub(crate) fn find<T: Copy>(mut table: &[(&[u8], T)], word: &[u8]) -> Option<T>
    ensures { result ≡ found_in (map (λ entry. (entry.0.now, entry.1)) table.entry.now) word.now }
{
    while let [entry, rest @ ..] = table {
        if entry.0 == word {
            return Some(entry.1);
        }
        table = rest;
    }
    None
}
