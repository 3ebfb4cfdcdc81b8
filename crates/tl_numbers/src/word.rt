//! The bits of one word.
ghost use Rattle.std.specs.Prelude.{◌≡◌, ◌≢◌, ℕ, ◌<◌, Some, IfSome};
ghost use Rattle.std.specs.Int.{bit_at, from_bool};
ghost use Rattle.tl_numbers.specs.Places.{IsFirstFrom, IsLastBelow};

/// How many bits a word has.
pub const WORD_BITS: usize = 64;

// The place of the last bit that is set.
pub fn highest(word: u64) -> usize
    requires { 0 < word }
    ensures { IsLastBelow (bit_at word) 64 (Some result) }
{
    WORD_BITS - 1 - word.leading_zeros() as usize
}

// The place of the first bit that is set.
pub fn lowest(word: u64) -> usize
    requires { 0 < word }
    ensures first { IsFirstFrom (bit_at word) 0 (Some result) }
    ensures within { result < 64 }
{
    word.trailing_zeros() as usize
}

// The place of the last bit below `n` that is set.
pub fn highest_below(word: u64, n: usize) -> Option<usize>
    requires { n < 64 }
    ensures { IsLastBelow (bit_at word) n result }
{
    let below = word & ((1 << n) - 1);
    if below == 0 {
        None
    } else {
        Some(highest(below))
    }
}

// The place of the first bit from `n` on that is set.
pub fn lowest_from(word: u64, n: usize) -> Option<usize>
    requires { n < 64 }
    ensures first { IsFirstFrom (bit_at word) n result }
    ensures within { IfSome result (λ place. place < 64) }
{
    let from = word & (u64::MAX << n);
    if from == 0 { None } else { Some(lowest(from)) }
}

// The word with this bit at a place.
pub fn with_bit(word: u64, place: usize, bit: bool) -> u64
    requires { place < 64 }
    ensures here { bit_at result place ≡ from_bool bit }
    ensures others { (k : ℕ) → k < 64 → k ≢ place → bit_at result k ≡ bit_at word k }
{
    if bit {
        word | (1 << place)
    } else {
        word & !(1 << place)
    }
}
