//! The one answer that every call with an allocator may give.

ghost use Rattle.std.specs.Prelude.{◌≡◌};

use std::alloc::{AllocError, AllocFailed};

/// Memory was refused. It says nothing else: a refused call has left its arguments as its contract says.
#[derive(Clone, Copy, Debug, PartialEq, Eq)]
pub struct NoMemory;

impl From<AllocError> for NoMemory {
    fn from(_refused: AllocError) -> NoMemory {
        NoMemory
    }
}

impl<T: Drop> From<AllocFailed<T>> for NoMemory {
    fn from(_refused: AllocFailed<T>) -> NoMemory {
        NoMemory
    }
}

impl<T: Drop> From<(T, NoMemory)> for NoMemory {
    fn from(refused: (T, NoMemory)) -> NoMemory {
        refused.1
    }
}
