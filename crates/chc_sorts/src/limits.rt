//! The limits that a group is held to.

ghost use Rattle.std.specs.Prelude.{◌≡◌, ◌≤◌, nat_lt, length};
ghost use Rattle.std.specs.List.{list_any};
ghost use Rattle.chc_sorts.specs.Groups.{limit_passed, is_wide, has_wide};

use crate::limit::Limit;
use crate::sig::Sig;
use crate::spec::DataSpec;

/// Whether the datatype has more than 256 constructors.
fn is_wide(datatype: &DataSpec) -> bool
    ensures { result ≡ is_wide datatype.now }
{
    datatype.ctors.len() > 256
}

/// Whether a constructor of the datatype has more than 64 fields.
fn has_wide(datatype: &DataSpec) -> bool
    ensures { result ≡ has_wide datatype.now }
{
    datatype
        .ctors
        .as_slice()
        .iter()
        .any(|ctor| ctor.fields.len() > 64)
}

/// Whether a datatype of the group has more than 256 constructors.
fn is_one_wide(group: &[DataSpec]) -> bool
    ensures { result ≡ list_any is_wide group.now }
{
    group.iter().any(|datatype| is_wide(datatype))
}

/// Whether a constructor in the group has more than 64 fields.
fn has_one_wide(group: &[DataSpec]) -> bool
    ensures { result ≡ list_any has_wide group.now }
{
    group.iter().any(|datatype| has_wide(datatype))
}

/// The first limit that the group passes: of datatypes, constructors or fields.
pub(crate) fn limit_passed(sig: &Sig, group: &[DataSpec]) -> Option<Limit>
    requires { length sig.now.datatypes ≤ 1024 }
    ensures { result ≡ limit_passed sig.now group.now }
{
    if group.len() > 1_024 - sig.datatypes().len() {
        return Some(Limit::L12);
    }
    if is_one_wide(group) {
        return Some(Limit::L13);
    }
    if has_one_wide(group) {
        return Some(Limit::L14);
    }
    None
}
