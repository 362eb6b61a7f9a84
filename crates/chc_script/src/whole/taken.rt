//! Names that every signature has.

ghost use Rattle.std.specs.Prelude.{◌≡◌};
ghost use Rattle.chc_sorts.specs.Groups.{fixed_functions};
ghost use Rattle.chc_sorts.specs.Names.{has_name};

use chc_sorts::op_by_name;

/// Whether the name is an operator's, `true` or `false`.
pub fn is_fixed(name: &[u8]) -> bool
    ensures { result ≡ has_name fixed_functions name.now }
{
    if name == b"true".as_slice() {
        return true;
    }
    if name == b"false".as_slice() {
        return true;
    }
    op_by_name(name).is_some()
}
