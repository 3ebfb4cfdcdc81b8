ghost use Rattle.std.specs.Prelude.{◌≡◌, ◌↔◌, ◌≤◌, IsSome, IfSome, IsTrue, length, bytes_eq};
ghost use Rattle.std.specs.List.{list_all, list_any};
ghost use Rattle.tl_lang.specs.Conf.{pairs_of, is_conf, is_short, keys_differ};

use std::marker::Model;
use tl_types::BYTES_LIMIT;

/// The greatest number of pairs of a configuration.
pub const PAIRS_LIMIT: usize = 16;

/// The configuration of a job: pairs of a key and a value, at most `PAIRS_LIMIT`, with distinct
/// keys; each key and value has at most `BYTES_LIMIT` bytes. Contracts see it as the list of its
/// pairs of bytes.
#[derive(Debug, Drop)]
pub struct Conf {
    pairs: Vec<(Vec<u8>, Vec<u8>)>,
}

impl Model for Conf {
    ghost use Rattle.std.specs.Prelude.{◌≡◌, true, List};
    ghost use Rattle.tl_lang.specs.Conf.{Pair, pairs_of, is_conf};

    ghost Value = { List Pair };

    ghost view = { λ c. pairs_of c.pairs.items };

    ghost invariant = { λ c. is_conf (pairs_of c.pairs.items) ≡ true };
}

impl Conf {
    /// The configuration of these pairs, in their order. `None` where there are more than
    /// `PAIRS_LIMIT`, where two have the same key, and where a key or a value is longer than
    /// `BYTES_LIMIT`. It takes no memory.
    pub fn new(pairs: Vec<(Vec<u8>, Vec<u8>)>) -> Option<Conf>
        ensures valid { IsSome result ↔ IsTrue (is_conf (pairs_of pairs.items)) }
        ensures value { IfSome result (λ conf. conf ≡ pairs_of pairs.items) }
    {
        if test_pairs(&pairs) {
            Some(Conf { pairs })
        } else {
            None
        }
    }

    /// The pairs, in order.
    pub fn pairs(&self) -> &[(Vec<u8>, Vec<u8>)]
        ensures value { pairs_of result.now ≡ self.now }
        ensures valid { IsTrue (is_conf self.now) }
    {
        self.pairs.as_slice()
    }
}

fn test_pairs(pairs: &[(Vec<u8>, Vec<u8>)]) -> bool
    ensures { result ≡ is_conf (pairs_of pairs.now) }
{
    if pairs.len() > PAIRS_LIMIT {
        return false;
    }
    if !are_short(pairs) {
        return false;
    }
    test_keys(pairs)
}

fn are_short(pairs: &[(Vec<u8>, Vec<u8>)]) -> bool
    ensures { result ≡ list_all is_short (pairs_of pairs.now) }
{
    for pair in pairs {
        if pair.0.len() > BYTES_LIMIT || pair.1.len() > BYTES_LIMIT {
            return false;
        }
    }
    true
}

fn test_keys(pairs: &[(Vec<u8>, Vec<u8>)]) -> bool
    ensures { result ≡ keys_differ (pairs_of pairs.now) }
{
    match pairs.split_first() {
        None => true,
        Some((first, rest)) => !has_key(rest, first.0.as_slice()) && test_keys(rest),
    }
}

fn has_key(pairs: &[(Vec<u8>, Vec<u8>)], key: &[u8]) -> bool
    ensures { result ≡ list_any (λ p. bytes_eq p.0 key.now) (pairs_of pairs.now) }
{
    for pair in pairs {
        if pair.0.as_slice() == key {
            return true;
        }
    }
    false
}
