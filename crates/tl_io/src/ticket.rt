ghost use Rattle.std.specs.Prelude.{◌≡◌, Bool, ℕ, List, IfOk};

use tl_types::NoMemory;

/// What a depot hands out for bytes that it keeps.
pub trait Ticket: Sized + Drop {
    // Whether tickets of this type tell their content.
    ghost tells: { Bool };

    // The bytes that the ticket is for, where it tells.
    ghost content: { Self → List ℕ };

    /// A ticket of the same content.
    fn copy(&self) -> Result<Self, NoMemory>
        ensures { IfOk result (λ copy. content copy ≡ content self.now) };
}
