//! What operators demand of their arguments.

ghost use Rattle.std.specs.Prelude.{◌≡◌, [], ◌∷◌, IfOk, option_copied, map};
ghost use Rattle.std.specs.Option.{option_map};
ghost use Rattle.std.specs.List.{list_all};
ghost use Rattle.chc_sorts.specs.declared.sort.Sort.TheVariants.{Bool as sort_bool, Int as sort_int};
ghost use Rattle.chc_sorts.specs.declared.op.Op.TheVariants.{Const as op_const, Get as op_get, Is as op_is, Make as op_make};
ghost use Rattle.chc_sorts.specs.Sorts.{same_sort};
ghost use Rattle.chc_terms.specs.declared.context.SortErr.TheVariants.{WrongSort as wrong_sort};
ghost use Rattle.chc_terms.specs.declared.demand.Demand.TheVariants.{Exactly as exactly};
ghost use Rattle.chc_terms.specs.Sorted.{are_truths, choice_sort, equation_sort, fields_of, read_sort, when, write_sort};
ghost use Rattle.chc_terms.specs.Judged.{Answers, or_refused};
ghost use Rattle.chc_terms.specs.Demands.{Demands, demanded_count, demanded_sort};

use crate::context::SortErr;
use crate::declared::is_declared;
use crate::fun_sort::FunSort;
use chc_sorts::{
    Boxed, Ctor, Field, List, NoMemory, Op, Sig, Sort, same_sort, same_sorts, written_operators,
};
use std::alloc::Global;

/// What an operator demands of its arguments, and which sort it then gives.
#[derive(Drop)]
pub enum Demand {
    /// Arguments of these sorts.
    Exactly(FunSort),
    /// Two or more truth values; it gives a truth value.
    Truths,
    /// Two arguments of one sort; it gives a truth value.
    Equation,
    /// A truth value and two arguments of one sort, which it gives.
    Choice,
    /// An array and an index; it gives the sort of the elements.
    Read,
    /// An array, an index and an element; it gives the array's sort.
    Write,
}

/// One argument of the sort `param` is demanded.
fn one(alloc: Global, param: Sort, gives: Sort) -> Result<Demand, NoMemory>
    ensures { IfOk result (λ d. d ≡ exactly (record { params = param ∷ []; result = gives })) }
{
    let mut params = List::new(alloc);
    params.push(param)?;
    Ok(Demand::Exactly(FunSort {
        params,
        result: gives,
    }))
}

/// Two numbers are demanded.
fn two_numbers(alloc: Global, gives: Sort) -> Result<Demand, NoMemory>
    ensures { IfOk result (λ d. d ≡ exactly (record { params = sort_int ∷ sort_int ∷ []; result = gives })) }
{
    let mut params = List::new(alloc);
    params.push(Sort::Int)?;
    params.push(Sort::Int)?;
    Ok(Demand::Exactly(FunSort {
        params,
        result: gives,
    }))
}

/// The constructor of number `c` of the datatype of number `d`, where both are there.
fn constructor(sig: &Sig, d: u32, c: u32) -> Option<&Ctor>
    ensures { option_map (λ k. map (λ f. f.sort) k.fields) (option_copied result) ≡ fields_of sig.now d c }
{
    let datatype = sig.datatypes().get(d as usize)?;
    datatype.ctors.get(c as usize)
}

/// The sorts of the fields, in order.
fn field_sorts(alloc: Global, fields: &List<Field>) -> Result<List<Sort>, NoMemory>
    ensures { IfOk result (λ l. l ≡ map (λ f. f.sort) fields.now) }
{
    let mut sorts = List::new(alloc);
    for field in fields.as_slice() {
        sorts.push(field.sort.copy(alloc)?)?;
    }
    Ok(sorts)
}

/// What a constant array demands.
fn of_const(alloc: Global, sig: &Sig, element: &Sort) -> Result<Demand, SortErr>
    ensures { Demands sig.now (op_const element.now) result }
{
    if !is_declared(sig, element) {
        return Err(SortErr::Unbound);
    }
    let param = element.copy(alloc)?;
    let held = element.copy(alloc)?;
    let gives = Sort::Array(Boxed::new(alloc, held)?);
    Ok(one(alloc, param, gives)?)
}

/// What a constructor demands.
fn of_make(alloc: Global, sig: &Sig, d: u32, c: u32) -> Result<Demand, SortErr>
    ensures { Demands sig.now (op_make d c) result }
{
    let Some(ctor) = constructor(sig, d, c) else {
        return Err(SortErr::Unbound);
    };
    let params = field_sorts(alloc, &ctor.fields)?;
    Ok(Demand::Exactly(FunSort {
        params,
        result: Sort::Data(d),
    }))
}

/// What a selector demands.
fn of_get(alloc: Global, sig: &Sig, d: u32, c: u32, i: u32) -> Result<Demand, SortErr>
    ensures { Demands sig.now (op_get d c i) result }
{
    let Some(ctor) = constructor(sig, d, c) else {
        return Err(SortErr::Unbound);
    };
    let Some(field) = ctor.fields.get(i as usize) else {
        return Err(SortErr::Unbound);
    };
    let gives = field.sort.copy(alloc)?;
    Ok(one(alloc, Sort::Data(d), gives)?)
}

/// What a tester demands.
fn of_is(alloc: Global, sig: &Sig, d: u32, c: u32) -> Result<Demand, SortErr>
    ensures { Demands sig.now (op_is d c) result }
{
    match constructor(sig, d, c) {
        Some(_) => Ok(one(alloc, Sort::Data(d), Sort::Bool)?),
        None => Err(SortErr::Unbound),
    }
}

macro_rules! demanded {
    (negated $alloc:expr) => {
        Ok(one($alloc, Sort::Bool, Sort::Bool)?)
    };
    (truths $alloc:expr) => {
        Ok(Demand::Truths)
    };
    (equal $alloc:expr) => {
        Ok(Demand::Equation)
    };
    (choice $alloc:expr) => {
        Ok(Demand::Choice)
    };
    (numbers $alloc:expr) => {
        Ok(two_numbers($alloc, Sort::Int)?)
    };
    (compared $alloc:expr) => {
        Ok(two_numbers($alloc, Sort::Bool)?)
    };
    (read $alloc:expr) => {
        Ok(Demand::Read)
    };
    (written $alloc:expr) => {
        Ok(Demand::Write)
    };
}

macro_rules! demands {
    ([$alloc:expr, $sig:expr, $op:expr] $($kind:ident $text:literal $demand:ident),*) => {
        match $op {
            $(Op::$kind => demanded!($demand $alloc),)*
            Op::Const(element) => of_const($alloc, $sig, element),
            Op::Make(d, c) => of_make($alloc, $sig, *d, *c),
            Op::Get(d, c, i) => of_get($alloc, $sig, *d, *c, *i),
            Op::Is(d, c) => of_is($alloc, $sig, *d, *c),
        }
    };
}

/// What the operator demands. Errors: `Unbound` where it names a datatype, constructor or field that isn't there;
/// `NoMemory`.
pub fn demand_of(alloc: Global, sig: &Sig, op: &Op) -> Result<Demand, SortErr>
    ensures { Demands sig.now op.now result }
{
    written_operators!([demands] alloc, sig, op)
}

/// The sort where the test holds, and otherwise `WrongSort`.
pub fn given(test: bool, sort: Sort) -> Result<Sort, SortErr>
    ensures { result ≡ or_refused wrong_sort (when test sort) }
{
    if test {
        Ok(sort)
    } else {
        Err(SortErr::WrongSort)
    }
}

/// Whether all of the sorts are Bool.
fn are_all_bool(sorts: &[Sort]) -> bool
    ensures { result ≡ list_all (same_sort sort_bool) sorts.now }
{
    for sort in sorts {
        if !same_sort(&Sort::Bool, sort) {
            return false;
        }
    }
    true
}

/// Whether the sorts are at least two, all of them Bool.
fn are_truths(sorts: &[Sort]) -> bool
    ensures { result ≡ are_truths sorts.now }
{
    match sorts {
        [] | [_] => false,
        [_, _, ..] => are_all_bool(sorts),
    }
}

/// The sort of an equation of these two, which are the same.
fn equation_sort(sorts: &[Sort]) -> Result<Sort, SortErr>
    ensures { result ≡ or_refused wrong_sort (equation_sort sorts.now) }
{
    match sorts {
        [left, right] => given(same_sort(left, right), Sort::Bool),
        [] | [_] | [_, _, _, ..] => Err(SortErr::WrongSort),
    }
}

/// A copy of the sort where the test holds, and otherwise `WrongSort`.
pub fn copy_given(alloc: Global, test: bool, sort: &Sort) -> Result<Sort, SortErr>
    ensures { Answers result (or_refused wrong_sort (when test sort.now)) }
{
    if !test {
        return Err(SortErr::WrongSort);
    }
    Ok(sort.copy(alloc)?)
}

/// The sort of a choice between the second and the third, which are the same.
fn choice_sort(alloc: Global, sorts: &[Sort]) -> Result<Sort, SortErr>
    ensures { Answers result (or_refused wrong_sort (choice_sort sorts.now)) }
{
    match sorts {
        [test, left, right] => copy_given(
            alloc,
            same_sort(test, &Sort::Bool) && same_sort(left, right),
            left,
        ),
        [] | [_] | [_, _] | [_, _, _, _, ..] => Err(SortErr::WrongSort),
    }
}

/// The sort of what is read from an array at an index.
#[tactic(auto, using(crate::proofs::SortTests::elements))]
fn read_sort(alloc: Global, sorts: &[Sort]) -> Result<Sort, SortErr>
    ensures { Answers result (or_refused wrong_sort (read_sort sorts.now)) }
{
    match sorts {
        [array, index] => match array {
            Sort::Array(element) => {
                copy_given(alloc, same_sort(index, &Sort::Int), element.get())
            }
            Sort::Bool | Sort::Int | Sort::Data(_) => Err(SortErr::WrongSort),
        },
        [] | [_] | [_, _, _, ..] => Err(SortErr::WrongSort),
    }
}

/// The sort of an array that is written to at an index.
#[tactic(auto, using(crate::proofs::SortTests::elements))]
fn write_sort(alloc: Global, sorts: &[Sort]) -> Result<Sort, SortErr>
    ensures { Answers result (or_refused wrong_sort (write_sort sorts.now)) }
{
    match sorts {
        [array, index, stored] => match array {
            Sort::Array(element) => copy_given(
                alloc,
                same_sort(index, &Sort::Int) && same_sort(stored, element.get()),
                array,
            ),
            Sort::Bool | Sort::Int | Sort::Data(_) => Err(SortErr::WrongSort),
        },
        [] | [_] | [_, _] | [_, _, _, _, ..] => Err(SortErr::WrongSort),
    }
}

/// Whether that many arguments are demanded.
pub fn takes(demand: &Demand, count: usize) -> bool
    ensures { result ≡ demanded_count demand.now count }
{
    match demand {
        Demand::Exactly(f) => count == f.params.len(),
        Demand::Truths => 1 < count,
        Demand::Equation | Demand::Read => count == 2,
        Demand::Choice | Demand::Write => count == 3,
    }
}

/// The sort on arguments of these sorts. Errors: `WrongSort` where other ones are demanded; `NoMemory`.
pub fn sort_on(alloc: Global, demand: Demand, sorts: &[Sort]) -> Result<Sort, SortErr>
    ensures { Answers result (or_refused wrong_sort (demanded_sort demand sorts.now)) }
{
    match demand {
        Demand::Exactly(FunSort { params, result }) => {
            given(same_sorts(sorts, params.as_slice()), result)
        }
        Demand::Truths => given(are_truths(sorts), Sort::Bool),
        Demand::Equation => equation_sort(sorts),
        Demand::Choice => choice_sort(alloc, sorts),
        Demand::Read => read_sort(alloc, sorts),
        Demand::Write => write_sort(alloc, sorts),
    }
}
