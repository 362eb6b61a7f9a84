//! The sorts of a group's fields: their names must be known, their arrays over Int, and none too deep.

ghost use Rattle.std.specs.Prelude.{◌≡◌, [], ◌∷◌, false, nat_lt};
ghost use Rattle.chc_sorts.specs.Groups.{ctor_specs, data_specs, field_specs};
ghost use Rattle.chc_sorts.specs.Checks.{Passes, Checks, shape, sort_found};

use crate::named::first_unknown;
use crate::names::NameTable;
use crate::refusal::SigErr;
use crate::spec::{CtorSpec, DataSpec, SortSpec};
use std::alloc::Global;

/// What was found in written sorts whose names are known: an array that isn't over Int, and a sort too deep.
#[derive(Clone, Copy)]
pub(crate) struct SortFaults {
    pub(crate) misindexed: bool,
    pub(crate) deep: bool,
}

/// Whether the written sort is Int.
fn is_int(spec: &SortSpec) -> bool
    ensures { result ≡ (shape spec.now).is_int }
{
    match spec {
        SortSpec::Named(name) => name.as_slice() == b"Int".as_slice(),
        SortSpec::Array(_, _) => false,
    }
}

/// Whether each array in the written sort is over Int.
fn is_over_int(spec: &SortSpec) -> bool
    ensures { result ≡ (shape spec.now).over_int }
{
    match spec {
        SortSpec::Named(_) => true,
        SortSpec::Array(index, element) => is_int(index.get()) && is_over_int(element.get()),
    }
}

/// Whether the written sort is deeper than `most`.
fn is_deeper(spec: &SortSpec, most: u32) -> bool
    ensures { result ≡ nat_lt most (shape spec.now).depth }
{
    match spec {
        SortSpec::Named(_) => most == 0,
        SortSpec::Array(_, element) => most == 0 || is_deeper(element.get(), most - 1),
    }
}

/// Checks one written sort. Errors: `UnknownSort`, `NoMemory`.
fn check_sort(
    alloc: Global,
    names: &NameTable,
    seen: &mut SortFaults,
    spec: &SortSpec,
) -> Result<(), SigErr>
    ensures { Passes (sort_found names.now) seen.old (spec.now ∷ []) result seen.new }
{
    if let Some(name) = first_unknown(names, spec) {
        return Err(SigErr::UnknownSort(name.copy(alloc)?));
    }
    seen.misindexed |= !is_over_int(spec);
    seen.deep |= is_deeper(spec, 16);
    Ok(())
}

/// Checks the sorts of a constructor's fields. Errors: `UnknownSort`, `NoMemory`.
fn check_fields(
    alloc: Global,
    names: &NameTable,
    seen: &mut SortFaults,
    ctor: &CtorSpec,
) -> Result<(), SigErr>
    ensures { Passes (sort_found names.now) seen.old (ctor_specs ctor.now) result seen.new }
{
    for field in ctor.fields.as_slice() {
        check_sort(alloc, names, seen, &field.sort)?;
    }
    Ok(())
}

/// Checks the sorts of a datatype's fields. Errors: `UnknownSort`, `NoMemory`.
fn check_ctors(
    alloc: Global,
    names: &NameTable,
    seen: &mut SortFaults,
    datatype: &DataSpec,
) -> Result<(), SigErr>
    ensures { Passes (sort_found names.now) seen.old (data_specs datatype.now) result seen.new }
{
    for ctor in datatype.ctors.as_slice() {
        check_fields(alloc, names, seen, ctor)?;
    }
    Ok(())
}

/// Checks the sorts of a group's fields. Errors: `UnknownSort`, `NoMemory`.
fn check_all(
    alloc: Global,
    names: &NameTable,
    seen: &mut SortFaults,
    group: &[DataSpec],
) -> Result<(), SigErr>
    ensures { Passes (sort_found names.now) seen.old (field_specs group.now) result seen.new }
{
    for datatype in group {
        check_ctors(alloc, names, seen, datatype)?;
    }
    Ok(())
}

/// Checks the sorts of a group's fields. Errors, the first of them: `UnknownSort` with the first name that no sort
/// has; `ArrayIndex` where an array isn't over Int; `SortTooDeep` where a sort is more than 16 deep; `NoMemory`.
pub(crate) fn check_sorts(
    alloc: Global,
    names: &NameTable,
    group: &[DataSpec],
) -> Result<(), SigErr>
    ensures { Checks result (sort_found names.now (record { misindexed = false; deep = false }) (field_specs group.now)) }
{
    let mut seen = SortFaults {
        misindexed: false,
        deep: false,
    };
    check_all(alloc, names, &mut seen, group)?;
    if seen.misindexed {
        return Err(SigErr::ArrayIndex);
    }
    if seen.deep {
        return Err(SigErr::SortTooDeep);
    }
    Ok(())
}
