//! The default of a sort.

ghost use Rattle.std.specs.Prelude.{◌≡◌, ◌<◌, true, Bool, IfOk, IsTrue, Some, slice_get, List, map};
ghost use Rattle.chc_sorts.specs.declared.sort.Sort.{Sort, fold-Sort};
ghost use Rattle.chc_sorts.specs.declared.sort.Sort.TheVariants as sort;
ghost use Rattle.chc_sorts.specs.declared.data.Field.{Field};
ghost use Rattle.chc_sorts.specs.Sorts.{is_declared_step};
ghost use Rattle.chc_values.specs.Values.{HasFields, IsOf};
ghost use Rattle.chc_values.specs.Defaults.{IsDefault};
ghost use Rattle.chc_values.specs.Choices.{is_below, is_within, AreChoices};
ghost use Rattle.chc_values.specs.Bases.{base_of, in_arrays};

#[cfg(test)]
mod tests;

use crate::choice::{Choice, Choices, Rounds, choices_for};
use crate::value::Value;
use chc_sorts::{Boxed, Field, List, NoMemory, Sig, Sort};
use std::alloc::Global;

/// What a sort's nested arrays are over, or the sort itself where it is no array.
enum Base {
    Bool,
    Int,
    /// The datatype of that number.
    Data(u32),
}

/// The sort's base.
fn base_of(sort: &Sort) -> Base
    ensures { result ≡ base_of sort.now }
{
    match sort {
        Sort::Bool => Base::Bool,
        Sort::Int => Base::Int,
        Sort::Data(d) => Base::Data(*d),
        Sort::Array(element) => base_of(element.get()),
    }
}

/// The array that is `value` everywhere, in as many arrays as the sort nests; `value` itself where it is no array.
fn in_arrays(alloc: Global, sort: &Sort, value: Value) -> Result<Value, NoMemory>
    ensures { IfOk result (λ v. v ≡ in_arrays value sort.now) }
{
    match sort {
        Sort::Bool | Sort::Int | Sort::Data(_) => Ok(value),
        Sort::Array(element) => {
            let default = in_arrays(alloc, element.get(), value)?;
            Ok(Value::Array(Boxed::new(alloc, default)?, List::new(alloc)))
        }
    }
}

/// The choice for a datatype that has one, of a height below `height`.
fn choice_of(d: u32, choices: &Choices, height: usize) -> Choice
    requires { is_below (slice_get choices.now d) height ≡ true }
    ensures there { slice_get choices.now d ≡ Some (Some result) }
    ensures below { result.height < height }
{
    match choices.get(d as usize) {
        Some(Some(choice)) => *choice,
        Some(None) | None => unreachable!(),
    }
}

/// The fields of a constructor that is declared: the numbers of the datatype and the constructor.
fn fields_of(d: u32, c: u32, sig: &Sig) -> &List<Field>
    requires { (sorts : List Sort) × HasFields sig.now d c sorts }
    ensures { HasFields sig.now d c (map (λ (f : Field). f.sort) result.now) }
{
    match sig.datatypes().get(d as usize) {
        Some(datatype) => match datatype.ctors.get(c as usize) {
            Some(ctor) => &ctor.fields,
            None => unreachable!(),
        },
        None => unreachable!(),
    }
}

/// The default of a sort of which the choices tell that its height is at most `height`.
#[cycle(default)]
fn sort_default(
    alloc: Global,
    sort: &Sort,
    sig: &Sig,
    choices: &Choices,
    height: usize,
) -> Result<Value, NoMemory>
    requires right { AreChoices sig.now choices.now }
    requires within { is_within choices.now height sort.now ≡ true }
    ensures { IfOk result (λ v. IsDefault sig.now sort.now v) }
{
    match base_of(sort) {
        Base::Bool => in_arrays(alloc, sort, Value::Bool(false)),
        Base::Int => in_arrays(alloc, sort, Value::Int(0)),
        Base::Data(d) => in_arrays(
            alloc,
            sort,
            datatype_default(alloc, d, sig, choices, height)?,
        ),
    }
}

/// The default of a datatype for which there is a choice of a height below `height`.
#[cycle(default)]
fn datatype_default(
    alloc: Global,
    d: u32,
    sig: &Sig,
    choices: &Choices,
    height: usize,
) -> Result<Value, NoMemory>
    requires right { AreChoices sig.now choices.now }
    requires told { is_below (slice_get choices.now d) height ≡ true }
    ensures { IfOk result (λ v. IsDefault sig.now (sort.Data d) v) }
{
    let choice = choice_of(d, choices, height);
    let mut values = List::new(alloc);
    for field in fields_of(d, choice.ctor, sig).as_slice() {
        values.push(sort_default(alloc, &field.sort, sig, choices, choice.height)?)?;
    }
    Ok(Value::Data(d, choice.ctor, values))
}

/// The choices that the default of the sort is built from.
fn rounds_for(alloc: Global, sort: &Sort, sig: &Sig) -> Result<Rounds, NoMemory>
    requires { IsTrue (fold-Sort Bool (is_declared_step sig.now) sort.now) }
    ensures right { IfOk result (λ r. AreChoices sig.now r.choices) }
    ensures within { IfOk result (λ r. is_within r.choices r.height sort.now ≡ true) }
{
    match base_of(sort) {
        Base::Bool | Base::Int => Ok(Rounds {
            choices: List::new(alloc),
            height: 0,
        }),
        Base::Data(d) => {
            let rounds = choices_for(alloc, d, sig)?;
            Ok(rounds)
        }
    }
}

/// The default of a sort: `false`, 0, the array that is the default everywhere, and for a datatype its first
/// constructor of least height on the defaults of its fields. It is a value of the sort. The height is 0 for
/// `Bool` and `Int`, the element's for an array, and for a datatype the least, over its constructors, of 1 more
/// than the greatest height of the fields.
///
/// A default may be exponentially larger than the signature, as where each datatype has two fields of the one
/// before it; it then takes as much memory. The recursion is at most as deep as there are datatypes, since the
/// fields of a chosen constructor are of a lesser height; the arrays around a value are made after it.
///
/// Errors: `NoMemory`.
pub fn default_of(alloc: Global, sort: &Sort, sig: &Sig) -> Result<Value, NoMemory>
    requires { IsTrue (fold-Sort Bool (is_declared_step sig.now) sort.now) }
    ensures default { IfOk result (λ v. IsDefault sig.now sort.now v) }
    ensures of_sort { IfOk result (λ v. IsOf sig.now v sort.now) }
{
    let rounds = rounds_for(alloc, sort, sig)?;
    let value = sort_default(alloc, sort, sig, &rounds.choices, rounds.height)?;
    Ok(value)
}
