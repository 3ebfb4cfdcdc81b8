ghost use Rattle.std.specs.Prelude.{◌≡◌, ◌≤◌, ◌↔◌, IsSome, IsTrue, IfSome, [], length};

use std::alloc::AllocError;
use std::marker::Model;

/// The greatest length of the bytes of one file.
pub const BYTES_LIMIT: usize = 1_048_576;

/// The bytes of one file, at most `BYTES_LIMIT`. Contracts see them as the list of their numbers.
#[derive(Debug, Drop)]
pub struct Bytes {
    items: Vec<u8>,
}

impl Model for Bytes {
    ghost use Rattle.std.specs.Prelude.{ℕ, List, ◌≤◌, length};

    ghost Value = { List ℕ };

    ghost view = { λ b. b.items.items };

    ghost invariant = { λ b. length b.items.items ≤ 1048576 };
}

impl Bytes {
    /// These bytes; `None` where they are more than `BYTES_LIMIT`.
    pub fn new(v: Vec<u8>) -> Option<Bytes>
        ensures valid { IsSome result ↔ (length v.items ≤ BYTES_LIMIT) }
        ensures value { IfSome result (λ b. b ≡ v.items) }
    {
        if v.len() <= BYTES_LIMIT {
            Some(Bytes { items: v })
        } else {
            None
        }
    }

    pub fn as_slice(&self) -> &[u8]
        ensures value { result.now ≡ self.now }
        ensures bound { length result.now ≤ BYTES_LIMIT }
    {
        self.items.as_slice()
    }

    pub fn len(&self) -> usize
        ensures value { result ≡ length self.now }
        ensures bound { result ≤ BYTES_LIMIT }
    {
        self.items.len()
    }

    pub fn is_empty(&self) -> bool
        ensures { IsTrue result ↔ (self.now ≡ []) }
    {
        self.items.is_empty()
    }

    /// The vector of the bytes.
    pub fn into_vec(self) -> Vec<u8>
        ensures value { result.items ≡ self }
        ensures bound { length result.items ≤ BYTES_LIMIT }
    {
        let Bytes { items } = self;
        items
    }
}

impl PartialEq for Bytes {
    ghost use Rattle.std.specs.Cmp.{partial_equiv_from_equiv, nat_eq_equiv};
    ghost use Rattle.std.specs.Cmp.Lexicographic.{lists_per};
    ghost use Rattle.std.specs.Str.{bytes_eq};

    ghost eq = { bytes_eq };

    ghost laws = { lists_per (partial_equiv_from_equiv nat_eq_equiv) };

    fn eq(&self, other: &Bytes) -> bool {
        self.items == other.items
    }
}

impl Eq for Bytes {
    ghost use Rattle.std.specs.Cmp.{nat_eq_equiv};
    ghost use Rattle.std.specs.Cmp.Lexicographic.{lists_equiv};

    ghost laws = { lists_equiv nat_eq_equiv };
}

impl Clone for Bytes {
    ghost use Rattle.std.specs.Prelude.{◌≡◌};

    ghost is_clone = { λ bytes copy. copy ≡ bytes };

    fn clone(&self) -> Result<Bytes, AllocError> {
        Ok(Bytes {
            items: self.items.clone()?,
        })
    }
}
