//! What a written sort stands for, where the names of the datatypes are known.

ghost use Rattle.std.specs.Prelude.{◌≡◌, ◌<◌, ◌^◌, nat_lt, length, option_copied, is_some, IfOk};
ghost use Rattle.chc_sorts.specs.Sorts.{sort_depth};
ghost use Rattle.chc_sorts.specs.Named.{Answers, sort_named, names_in, first_unknown, array_over, sort_meant, most_depth, held_to_depth, sort_read};

use crate::boxed::Boxed;
use crate::list::Name;
use crate::memory::NoMemory;
use crate::names::NameTable;
use crate::refusal::SigErr;
use crate::sort::Sort;
use crate::spec::SortSpec;
use std::alloc::Global;

#[cfg(test)]
mod tests;

/// The greatest depth of a sort that is read.
const MOST_DEPTH: u32 = 16;

/// The sort of a name, or `None` where no sort has it.
pub(crate) fn sort_named(names: &NameTable, name: &[u8]) -> Option<Sort>
    requires { length names.now < 2 ^ 32 }
    ensures { result ≡ sort_named names.now name.now }
{
    if name == b"Bool".as_slice() {
        return Some(Sort::Bool);
    }
    if name == b"Int".as_slice() {
        return Some(Sort::Int);
    }
    let number = names.number_of(name)?;
    Some(Sort::Data(number as u32))
}

/// Whether a sort has the name.
fn is_known(names: &NameTable, name: &[u8]) -> bool
    ensures { result ≡ is_some (sort_named names.now name.now) }
{
    if name == b"Bool".as_slice() {
        return true;
    }
    if name == b"Int".as_slice() {
        return true;
    }
    names.number_of(name).is_some()
}

/// The first name in `spec`, from left to right, that no sort has.
#[tactic(auto, using(crate::proofs::Unknown::first_unknown_array))]
pub(crate) fn first_unknown<'a>(names: &NameTable, spec: &'a SortSpec) -> Option<&'a Name>
    ensures { option_copied result ≡ first_unknown names.now (names_in spec.now) }
{
    match spec {
        SortSpec::Named(name) => {
            if is_known(names, name.as_slice()) {
                return None;
            }
            Some(name)
        }
        SortSpec::Array(index, element) => match first_unknown(names, index.get()) {
            Some(name) => Some(name),
            None => first_unknown(names, element.get()),
        },
    }
}

/// The sort that `spec` stands for, however deep; `None` where one of its names is unknown or an array isn't over Int.
/// Errors: `NoMemory`.
pub(crate) fn sort_meant(
    alloc: Global,
    names: &NameTable,
    spec: &SortSpec,
) -> Result<Option<Sort>, NoMemory>
    requires { length names.now < 2 ^ 32 }
    ensures { IfOk result (λ s. s ≡ sort_meant names.now spec.now) }
{
    match spec {
        SortSpec::Named(name) => Ok(sort_named(names, name.as_slice())),
        SortSpec::Array(index, element) => {
            let index = sort_meant(alloc, names, index.get())?;
            let element = sort_meant(alloc, names, element.get())?;
            array_over(alloc, index, element)
        }
    }
}

/// The array over `element`, where `index` is Int.
fn array_over(
    alloc: Global,
    index: Option<Sort>,
    element: Option<Sort>,
) -> Result<Option<Sort>, NoMemory>
    ensures { IfOk result (λ s. s ≡ array_over index element) }
{
    match (index, element) {
        (Some(Sort::Int), Some(element)) => Ok(Some(Sort::Array(Boxed::new(alloc, element)?))),
        _ => Ok(None),
    }
}

/// Whether the sort is deeper than `most`.
fn is_deeper(sort: &Sort, most: u32) -> bool
    ensures { result ≡ nat_lt most (sort_depth sort.now) }
{
    match sort {
        Sort::Bool | Sort::Int | Sort::Data(_) => most == 0,
        Sort::Array(element) => most == 0 || is_deeper(element.get(), most - 1),
    }
}

/// Whether the sort is deeper than sorts that are read may be.
pub(crate) fn is_too_deep(sort: &Sort) -> bool
    ensures { result ≡ nat_lt most_depth (sort_depth sort.now) }
{
    is_deeper(sort, MOST_DEPTH)
}

/// The sort that `spec` stands for. Errors, the first of them: `UnknownSort` with the first name, from left to right,
/// that no sort has; `ArrayIndex` where an array's index sort isn't Int; `SortTooDeep` where the sort is more than 16
/// deep; `NoMemory`.
pub(crate) fn sort_read(alloc: Global, names: &NameTable, spec: &SortSpec) -> Result<Sort, SigErr>
    requires { length names.now < 2 ^ 32 }
    ensures { Answers result (sort_read names.now spec.now) }
{
    if let Some(name) = first_unknown(names, spec) {
        return Err(SigErr::UnknownSort(name.copy(alloc)?));
    }
    match sort_meant(alloc, names, spec)? {
        None => Err(SigErr::ArrayIndex),
        Some(sort) => held_to_depth(sort),
    }
}

/// The sort, or a refusal where it is too deep.
fn held_to_depth(sort: Sort) -> Result<Sort, SigErr>
    ensures { result ≡ held_to_depth (Some sort) }
{
    if is_too_deep(&sort) {
        return Err(SigErr::SortTooDeep);
    }
    Ok(sort)
}
