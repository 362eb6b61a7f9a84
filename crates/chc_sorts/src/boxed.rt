//! A box that contracts see as the value in it.

ghost use Rattle.std.specs.Prelude.{◌≡◌, IfOk, IfErr};

use crate::memory::NoMemory;
use std::alloc::Global;
use std::marker::Model;

/// One value on the heap, which contracts see as that value: two boxes are equal where their values are.
#[derive(Debug, Drop)]
pub struct Boxed<T> {
    inner: Box<T>,
}

impl<T> Model for Boxed<T> {
    ghost Value = { T };

    ghost coded = { T.code };

    ghost view = { λ b. b.inner.value };
}

impl<T> Boxed<T> {
    /// Puts `value` on the heap; where memory is refused, hands it back.
    pub fn new(alloc: Global, value: T) -> Result<Boxed<T>, (T, NoMemory)>
        ensures held { IfOk result (λ b. b ≡ value) }
        ensures back { IfErr result (λ e. e.0 ≡ value) }
    {
        match Box::new(alloc, value) {
            Ok(inner) => Ok(Boxed { inner }),
            Err(refused) => Err((refused.value, NoMemory)),
        }
    }

    /// The value, borrowed.
    pub fn get(&self) -> &T
        ensures { result.now ≡ self.now }
    {
        &self.inner
    }

    /// The value, moved out.
    pub fn into_inner(self) -> T
        ensures { result ≡ self }
    {
        let Boxed { inner } = self;
        Box::into_inner(inner)
    }
}
