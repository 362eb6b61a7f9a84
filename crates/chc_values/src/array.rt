//! Arrays: what stands at an index, and stores.

ghost use Rattle.std.specs.Prelude.{◌≡◌, ◌≢◌, ◌≤◌, length, insert, IfOk, IfErr};
ghost use Rattle.chc_values.specs.declared.value.Value.{Value};
ghost use Rattle.chc_values.specs.Values.{IsCanonical};
ghost use Rattle.chc_values.specs.Arrays.{HasAt, Stores, IsArray, Selects, Updates, IsElement, KeepsSort, IsOrdered, IsAt, IsGap};

use crate::compare::same;
use crate::value::{Entries, Value};
use chc_sorts::{List, NoMemory};
use std::alloc::Global;

/// What the array has at the index `i`: the exception there, or the default. Errors: `NoMemory`.
pub fn array_get(alloc: Global, a: &Value, i: i128) -> Result<Value, NoMemory>
    requires { IsArray a.now }
    ensures element { IfOk result (λ v. Selects a.now i v) }
    ensures sort { IfOk result (λ v. IsElement a.now v) }
{
    match a {
        Value::Array(default, exceptions) => element_at(default.get(), exceptions, i).copy(alloc),
        Value::Bool(_) | Value::Int(_) | Value::Data(_, _, _) => unreachable!(),
    }
}

/// The array with `v` at the index `i`, and as before at every other index. It has no exception that equals the
/// default, so arrays with the same element at each index are the same value. Errors: `NoMemory`.
pub fn array_set(_alloc: Global, a: Value, i: i128, v: Value) -> Result<Value, NoMemory>
    requires { IsArray a }
    ensures stored { IfOk result (λ b. Updates a i v b) }
    ensures sort { IfOk result (λ b. KeepsSort a v b) }
{
    match a {
        Value::Array(default, exceptions) => {
            let stored = stored(default.get(), exceptions, i, v)?;
            Ok(Value::Array(default, stored))
        }
        Value::Bool(_) | Value::Int(_) | Value::Data(_, _, _) => unreachable!(),
    }
}

/// The exception at the index, or the default.
fn element_at<'a>(default: &'a Value, exceptions: &'a Entries, i: i128) -> &'a Value
    requires { IsOrdered exceptions.now }
    ensures { HasAt default.now exceptions.now i result.now }
{
    let entries = exceptions.as_slice();
    match place_of(entries, i) {
        Ok(place) => &entries[place].1,
        Err(_) => default,
    }
}

/// The exceptions with `v` at the index.
fn stored(default: &Value, exceptions: Entries, i: i128, v: Value) -> Result<Entries, NoMemory>
    requires { IsCanonical default.now exceptions }
    ensures { IfOk result (λ l. Stores default.now exceptions i v l) }
{
    if same(&v, default) {
        Ok(without(exceptions, i))
    } else {
        with(exceptions, i, v)
    }
}

/// Where the index stands, or else where it would go.
fn place_of(entries: &[(i128, Value)], i: i128) -> Result<usize, usize>
    requires { IsOrdered entries.now }
    ensures found { IfOk result (IsAt i entries.now) }
    ensures absent { IfErr result (IsGap i entries.now) }
{
    entries.binary_search_by_key(&i, |entry| entry.0)
}

/// The exceptions without the index, which has the default then.
fn without(exceptions: Entries, i: i128) -> Entries
    requires { IsOrdered exceptions }
    ensures { (default : Value) → IsCanonical default exceptions → Stores default exceptions i default result }
{
    let mut kept = exceptions;
    if let Ok(place) = place_of(kept.as_slice(), i) {
        let _old = kept.remove(place);
    }
    kept
}

/// The exceptions with `v`, which isn't the default, at the index.
fn with(exceptions: Entries, i: i128, v: Value) -> Result<Entries, NoMemory>
    requires { IsOrdered exceptions }
    ensures { IfOk result (λ l. (default : Value) → v ≢ default → IsCanonical default exceptions → Stores default exceptions i v l) }
{
    match place_of(exceptions.as_slice(), i) {
        Ok(place) => {
            let mut changed = exceptions;
            let _old = changed.replace(place, (i, v));
            Ok(changed)
        }
        Err(place) => with_inserted(exceptions, place, (i, v)),
    }
}

/// The exceptions with one more at the place.
fn with_inserted(
    exceptions: Entries,
    place: usize,
    entry: (i128, Value),
) -> Result<Entries, NoMemory>
    requires { place ≤ length exceptions }
    ensures { IfOk result (λ l. l ≡ insert exceptions place entry) }
{
    let mut items = exceptions.into_vec();
    items.insert(place, entry)?;
    Ok(List::from_vec(items))
}
