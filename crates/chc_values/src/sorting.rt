//! Which values a sort has.

ghost use Rattle.std.specs.Prelude.{◌≡◌, ◌≢◌, ◌↔◌, ℤ, ◌<ℤ◌, IsTrue, List, MatchOption, map, All};
ghost use Rattle.std.specs.List.{AllByRecursion};
ghost use Rattle.chc_sorts.specs.declared.sort.Sort.{Sort};
ghost use Rattle.chc_sorts.specs.declared.sort.Sort.TheVariants as sorts;
ghost use Rattle.chc_sorts.specs.declared.data.Field.{Field};
ghost use Rattle.chc_values.specs.declared.value.Value.{Value};
ghost use Rattle.chc_values.specs.Values.{HasFields, IsCanonical, IsOf, AreOf};
ghost use Rattle.chc_values.specs.Arrays.{IsOrdered};

use crate::compare::same;
use crate::value::{Entries, Value, Values};
use chc_sorts::{Ctor, Field, List, Sig, Sort};

/// Whether the value is of the sort. It takes no memory.
#[cycle(is_of)]
pub fn is_of(v: &Value, sort: &Sort, sig: &Sig) -> bool
    ensures { IsTrue result ↔ IsOf sig.now v.now sort.now }
{
    match v {
        Value::Bool(_) => is_bool(sort),
        Value::Int(_) => is_int(sort),
        Value::Data(d, c, fields) => is_datatype(sort, *d) && are_fields(fields, *d, *c, sig),
        Value::Array(default, exceptions) => match element(sort) {
            None => false,
            Some(element) => {
                if !is_canonical(default.get(), exceptions) {
                    return false;
                }
                is_of(default.get(), element, sig) && are_entries_of(exceptions, element, sig)
            }
        },
    }
}

/// Whether the values are of the sorts of the fields of constructor `c` of the datatype `d`.
#[cycle(is_of)]
fn are_fields(values: &Values, d: u32, c: u32, sig: &Sig) -> bool
    ensures { IsTrue result ↔ ((ss : List Sort) × HasFields sig.now d c ss × AreOf sig.now values.now ss) }
{
    match constructor(d, c, sig) {
        None => false,
        Some(found) => are_of(values, &found.fields, sig),
    }
}

/// Whether there are as many values as fields, each of its field's sort.
#[cycle(is_of)]
fn are_of(values: &Values, fields: &List<Field>, sig: &Sig) -> bool
    ensures { IsTrue result ↔ AreOf sig.now values.now (map (λ (f : Field). f.sort) fields.now) }
{
    let fields = fields.as_slice();
    if values.len() != fields.len() {
        return false;
    }
    for (i, value) in values.as_slice().iter().enumerate() {
        if !is_of(value, &fields[i].sort, sig) {
            return false;
        }
    }
    true
}

/// Whether the exceptions' values are of the sort.
#[cycle(is_of)]
fn are_entries_of(exceptions: &Entries, sort: &Sort, sig: &Sig) -> bool
    ensures { IsTrue result ↔ AllByRecursion (λ (e : ℤ × Value). IsOf sig.now e.1 sort.now) exceptions.now }
{
    for entry in exceptions.as_slice() {
        if !is_of(&entry.1, sort, sig) {
            return false;
        }
    }
    true
}

/// Whether the sort is Bool.
fn is_bool(sort: &Sort) -> bool
    ensures { IsTrue result ↔ (sort.now ≡ sorts.Bool) }
{
    matches!(sort, Sort::Bool)
}

/// Whether the sort is Int.
fn is_int(sort: &Sort) -> bool
    ensures { IsTrue result ↔ (sort.now ≡ sorts.Int) }
{
    matches!(sort, Sort::Int)
}

/// Whether the sort is the datatype of that number.
fn is_datatype(sort: &Sort, d: u32) -> bool
    ensures { IsTrue result ↔ (sort.now ≡ sorts.Data d) }
{
    match sort {
        Sort::Data(e) => *e == d,
        Sort::Bool | Sort::Int | Sort::Array(_) => false,
    }
}

/// The sort of the elements, or `None` where the sort is no array's.
fn element(sort: &Sort) -> Option<&Sort>
    ensures { MatchOption result ((s : Sort) → sort.now ≡ sorts.Array s → ⊥) (λ s. sort.now ≡ sorts.Array s.now) }
{
    match sort {
        Sort::Array(element) => Some(element.get()),
        Sort::Bool | Sort::Int | Sort::Data(_) => None,
    }
}

/// Constructor `c` of the datatype `d`, or `None` where it isn't declared.
pub(crate) fn constructor(d: u32, c: u32, sig: &Sig) -> Option<&Ctor>
    ensures { MatchOption result ((ss : List Sort) → HasFields sig.now d c ss → ⊥) (λ k. HasFields sig.now d c (map (λ (f : Field). f.sort) k.now.fields)) }
{
    let datatype = sig.datatype(d)?;
    datatype.ctors.get(c as usize)
}

/// Whether the exceptions stand with ascending indices, and none has the default.
fn is_canonical(default: &Value, exceptions: &Entries) -> bool
    ensures { IsTrue result ↔ IsCanonical default.now exceptions.now }
{
    is_ordered(exceptions) && differ_from(exceptions, default)
}

/// Whether the indices ascend.
fn is_ordered(exceptions: &Entries) -> bool
    ensures { IsTrue result ↔ IsOrdered exceptions.now }
{
    let entries = exceptions.as_slice();
    for i in 1..entries.len() {
        if !is_below(&entries[i - 1], &entries[i]) {
            return false;
        }
    }
    true
}

/// Whether the first exception's index is below the second's.
fn is_below(x: &(i128, Value), y: &(i128, Value)) -> bool
    ensures { IsTrue result ↔ (x.now.0 <ℤ y.now.0) }
{
    x.0 < y.0
}

/// Whether no exception has the value.
fn differ_from(exceptions: &Entries, v: &Value) -> bool
    ensures { IsTrue result ↔ All (λ (e : ℤ × Value). e.1 ≢ v.now) exceptions.now }
{
    for entry in exceptions.as_slice() {
        if same(&entry.1, v) {
            return false;
        }
    }
    true
}
