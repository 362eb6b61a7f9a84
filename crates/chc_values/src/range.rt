//! Values in range.

ghost use Rattle.std.specs.Prelude.{◌≡◌};
ghost use Rattle.std.specs.List.{list_all};
ghost use Rattle.chc_values.specs.Ranges.{is_int_in_range, is_within, are_entries_within};

use crate::value::{Entries, Value, Values};

/// The depth that a value in range has at most.
const DEEPEST: u32 = 2_000;

/// Whether the value is at most 2,000 deep, where a leaf is 1 deep and a default or an exception stands 1 below its
/// array, and each integer in it, an exception's index too, lies in -M..M, where M is 2^127 - 1. It takes no memory,
/// and calls itself at most 2,000 levels deep.
pub fn in_range(v: &Value) -> bool
    ensures { result ≡ is_within 2000 v.now }
{
    is_within(v, DEEPEST)
}

/// Whether the integer lies in -M..M.
fn is_int_in_range(n: i128) -> bool
    ensures { result ≡ is_int_in_range n }
{
    n != i128::MIN
}

/// Whether the value is at most `depth` deep, with each integer in range.
#[cycle(within)]
fn is_within(v: &Value, depth: u32) -> bool
    ensures { result ≡ is_within depth v.now }
{
    if depth == 0 {
        return false;
    }
    match v {
        Value::Bool(_) => true,
        Value::Int(n) => is_int_in_range(*n),
        Value::Data(_, _, fields) => are_within(fields, depth - 1),
        Value::Array(default, exceptions) => {
            is_within(default.get(), depth - 1) && are_entries_within(exceptions, depth - 1)
        }
    }
}

/// Whether each of the values is at most `depth` deep, with each integer in range.
#[cycle(within)]
fn are_within(values: &Values, depth: u32) -> bool
    ensures { result ≡ list_all (is_within depth) values.now }
{
    for value in values.as_slice() {
        if !is_within(value, depth) {
            return false;
        }
    }
    true
}

/// Whether each of the exceptions has such a value, at an index in range.
#[cycle(within)]
fn are_entries_within(entries: &Entries, depth: u32) -> bool
    ensures { result ≡ are_entries_within depth entries.now }
{
    for entry in entries.as_slice() {
        if !is_int_in_range(entry.0) || !is_within(&entry.1, depth) {
            return false;
        }
    }
    true
}
