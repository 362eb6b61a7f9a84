//! Names on fresh memory.

ghost use Rattle.std.specs.Prelude.{◌≡◌, IfOk};

use chc_sorts::{List, Name, NoMemory};
use std::alloc::Global;

/// An equal name on fresh memory.
pub fn name_of(alloc: Global, bytes: &[u8]) -> Result<Name, NoMemory>
    ensures { IfOk result (λ name. name ≡ bytes.now) }
{
    let mut name = List::new(alloc);
    for byte in bytes {
        name.push(*byte)?;
    }
    Ok(name)
}
