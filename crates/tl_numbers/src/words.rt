//! The bits of a row of words.
ghost use Rattle.std.specs.Prelude.{◌≡◌, ◌≢◌, ℕ, ◌+◌, ◌*◌, ◌/◌, ◌<◌, ◌≤◌, length, replicate, slice_index, ◌==◌, OnOk};
ghost use Rattle.std.specs.Int.{from_bool};
ghost use Rattle.tl_numbers.specs.Layers.{IsGrown, bit_in, mark_of};
ghost use Rattle.tl_numbers.specs.Places.{IsFirstFrom, IsLastBelow};

use crate::word::{WORD_BITS, highest, highest_below, lowest, lowest_from, with_bit};
use std::alloc::AllocError;

// The last bit below `n` that is set. `before` is the last word before that of `n` that is not zero.
pub fn last_below(words: &[u64], n: usize, before: Option<usize>) -> Option<usize>
    requires { IsLastBelow (mark_of words.now) (n / 64) before }
    ensures { IsLastBelow (bit_in words.now) n result }
{
    let word = n / WORD_BITS;
    match highest_below(word_at(words, word), n % WORD_BITS) {
        Some(place) => Some(word * WORD_BITS + place),
        None => {
            let word = before?;
            Some(word * WORD_BITS + highest(word_at(words, word)))
        }
    }
}

// The first bit from `n` on that is set. `after` is the first word after that of `n` that is not zero.
pub fn first_from(words: &[u64], n: usize, after: Option<usize>) -> Option<usize>
    requires short { length words.now ≤ 262144 }
    requires after { IsFirstFrom (mark_of words.now) (n / 64 + 1) after }
    ensures { IsFirstFrom (bit_in words.now) n result }
{
    let word = n / WORD_BITS;
    match lowest_from(word_at(words, word), n % WORD_BITS) {
        Some(place) => Some(word * WORD_BITS + place),
        None => {
            let word = after?;
            Some(word * WORD_BITS + lowest(word_at(words, word)))
        }
    }
}

// A word, and zero past the last one.
fn word_at(words: &[u64], index: usize) -> u64
    ensures { result ≡ slice_index words.now index }
{
    words.get(index).copied().unwrap_or(0)
}

// Whether a bit is set.
pub fn bit(words: &[u64], n: usize) -> bool
    ensures { result ≡ (bit_in words.now n == 1) }
{
    (word_at(words, n / WORD_BITS) >> (n % WORD_BITS)) & 1 == 1
}

// Writes a bit, and answers whether its word is not zero then.
pub fn write(words: &mut Vec<u64>, n: usize, bit: bool) -> bool
    requires { n / 64 < length words.old.items }
    ensures here { bit_in words.new.items n ≡ from_bool bit }
    ensures others { (k : ℕ) → k ≢ n → bit_in words.new.items k ≡ bit_in words.old.items k }
    ensures mark { mark_of words.new.items (n / 64) ≡ from_bool result }
    ensures marks { (j : ℕ) → j ≢ n / 64 →
        mark_of words.new.items j ≡ mark_of words.old.items j }
    ensures len { length words.new.items ≡ length words.old.items }
{
    let word = with_bit(words[n / WORD_BITS], n % WORD_BITS, bit);
    words[n / WORD_BITS] = word;
    word != 0
}

// Makes every word zero.
pub fn erase(words: &mut Vec<u64>)
    ensures { words.new.items ≡ replicate (length words.old.items) 0 }
{
    words.fill(0);
}

// Appends words that are zero until there are at least `len`.
pub fn grow(words: &mut Vec<u64>, len: usize) -> Result<(), AllocError>
    ensures grown { IsGrown len words.old.items words.new.items }
    ensures len { OnOk result (len ≤ length words.new.items) }
{
    if words.len() < len {
        words.resize(len, 0)?;
    }
    Ok(())
}
