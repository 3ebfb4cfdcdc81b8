ghost use Rattle.std.specs.Prelude.{◌≡◌};
ghost use Rattle.tl_types.specs.Outcome.{outcome_size};

use crate::bytes::Bytes;
use std::alloc::AllocError;

/// What a file holds: a value, or the code of the fault that its job met, 1 to 8.
#[derive(Debug, Drop)]
pub enum Outcome {
    Value(Bytes),
    Fault(u8),
}

impl Outcome {
    /// The length of the value; 0 for a fault.
    pub fn size(&self) -> usize
        ensures { result ≡ outcome_size self.now }
    {
        match self {
            Outcome::Value(bytes) => bytes.len(),
            Outcome::Fault(_) => 0,
        }
    }
}

impl PartialEq for Outcome {
    ghost use Rattle.std.specs.Cmp.{partial_equiv_from_equiv};
    ghost use Rattle.tl_types.specs.Same.{outcome_same, outcome_same-equiv};

    ghost eq = { outcome_same };

    ghost laws = { partial_equiv_from_equiv outcome_same-equiv };

    fn eq(&self, other: &Outcome) -> bool {
        match (self, other) {
            (Outcome::Value(a), Outcome::Value(b)) => a == b,
            (Outcome::Fault(c), Outcome::Fault(d)) => c == d,
            _ => false,
        }
    }
}

impl Eq for Outcome {
    ghost use Rattle.tl_types.specs.Same.{outcome_same-equiv};

    ghost laws = { outcome_same-equiv };
}

impl Clone for Outcome {
    ghost use Rattle.std.specs.Prelude.{◌≡◌};

    ghost is_clone = { λ outcome copy. copy ≡ outcome };

    fn clone(&self) -> Result<Outcome, AllocError> {
        match self {
            Outcome::Value(bytes) => Ok(Outcome::Value(bytes.clone()?)),
            Outcome::Fault(code) => Ok(Outcome::Fault(*code)),
        }
    }
}
