//! Priorities as numbers, of which the greatest counts.

ghost use Rattle.std.specs.Prelude.{◌≡◌, max};

use tl_types::Prio;

/// The least priority.
pub(crate) fn least() -> Prio
    ensures { result ≡ 0 }
{
    match Prio::new(0) {
        Some(prio) => prio,
        None => unreachable!(),
    }
}

/// The greater of two priorities.
pub(crate) fn greater(a: Prio, b: Prio) -> Prio
    ensures { result ≡ max a b }
{
    if a.get() < b.get() { b } else { a }
}
