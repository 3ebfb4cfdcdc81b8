//! A word that is a number.

ghost use Rattle.std.specs.Prelude.{◌≡◌, ◌<◌, ◌^◌, ℕ, IfSome};
ghost use Rattle.std.specs.Fmt.{decimal};

use tl_text::read_number;

/// The number whose one spelling is the whole word: decimal, without leading zeros.
pub(crate) fn number_of(word: &str) -> Option<u64>
    ensures found { IfSome result (λ n. word.now ≡ decimal n) }
    ensures fits { IfSome result (λ n. n < 2 ^ 64) }
    ensures only { (n : ℕ) → n < 2 ^ 64 → word.now ≡ decimal n → result ≡ Some n }
{
    let Ok((number, end)) = read_number(word.as_bytes(), 0) else {
        return None;
    };
    if end == word.len() {
        Some(number)
    } else {
        None
    }
}
