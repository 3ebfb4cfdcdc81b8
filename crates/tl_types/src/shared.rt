ghost use Rattle.std.specs.Prelude.{◌≡◌, IfOk};

use crate::no_memory::NoMemory;
use std::alloc::Global;
use std::marker::Model;
use std::sync::Arc;

/// A value that several owners share. Contracts see it as the value.
#[derive(Debug, Drop)]
pub struct Shared<X> {
    inner: Arc<X>,
}

impl<X> Model for Shared<X> {
    ghost Value = { X };

    ghost coded = { X.code };

    ghost view = { λ s. s.inner.value };
}

impl<X> Shared<X> {
    /// The value.
    pub fn get(&self) -> &X
        ensures { result.now ≡ self.now }
    {
        &self.inner
    }
}

impl<X: Drop> Shared<X> {
    /// Moves `value` to where it can be shared.
    pub fn new(alloc: Global, value: X) -> Result<Shared<X>, NoMemory>
        ensures { IfOk result (λ s. s ≡ value) }
    {
        Ok(Shared {
            inner: Arc::new(alloc, value)?,
        })
    }

    /// One more owner of the same value.
    pub fn try_clone(&self) -> Result<Shared<X>, NoMemory>
        ensures { IfOk result (λ s. s ≡ self.now) }
    {
        Ok(Shared {
            inner: Arc::try_clone(&self.inner)?,
        })
    }
}

impl<X: PartialEq> PartialEq for Shared<X> {
    ghost eq = { X.eq };

    ghost laws = { X.laws };

    fn eq(&self, other: &Shared<X>) -> bool {
        self.get() == other.get()
    }
}

impl<X: Eq> Eq for Shared<X> {
    ghost laws = { X.Eq.laws };
}
