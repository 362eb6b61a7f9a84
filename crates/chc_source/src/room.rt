//! Room for bytes.

ghost use Rattle.std.specs.Prelude.{◌≡◌, vec_len, IfOk};

use chc_sorts::NoMemory;
use std::alloc::{AllocError, Global};

/// So many zero bytes.
pub(crate) fn zeros(alloc: Global, count: usize) -> Result<Vec<u8>, NoMemory>
    ensures { IfOk result (λ v. vec_len v ≡ count) }
{
    match vec![in alloc; 0u8; count] {
        Ok(bytes) => Ok(bytes),
        Err(AllocError) => Err(NoMemory),
    }
}
