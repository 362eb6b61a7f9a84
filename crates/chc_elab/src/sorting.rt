//! The sorts that heads give.

ghost use Rattle.std.specs.Prelude.{◌≡◌, ◌∷◌, [], None, Some, map, MatchOption};
ghost use Rattle.std.specs.List.{list_all};
ghost use Rattle.chc_sorts.specs.declared.op.Op.TheVariants as op;
ghost use Rattle.chc_sorts.specs.declared.sort.Sort.TheVariants as sort;
ghost use Rattle.chc_sorts.specs.Sorts.{same_sort, same_sorts};
ghost use Rattle.chc_sexpr.specs.Readings.{Gives};
ghost use Rattle.chc_terms.specs.Sorted.{choice_sort, element_of, equation_sort, op_sort, fields_of, read_sort, write_sort};
ghost use Rattle.chc_elab.specs.Building.{constant_sort, declared_sort, head_sort, on_all, on_equal, qualified_sort, sort_read_as};

use crate::head::Head;
use crate::symbols::Symbol;
use chc_sorts::{Field, List, NoMemory, ReadOp, Sig, Sort, operator_rows, same_sort, same_sorts};
use std::alloc::Global;

/// Whether all are the sort.
fn are_all(sort: &Sort, sorts: &[Sort]) -> bool
    ensures { result ≡ list_all (same_sort sort.now) sorts.now }
{
    sorts.iter().all(|s| same_sort(sort, s))
}

/// The sort, where all the arguments have the other one.
fn on_all(of: Sort, sort: Sort, sorts: &[Sort]) -> Option<Sort>
    ensures { result ≡ on_all of sort sorts.now }
{
    if are_all(&of, sorts) {
        Some(sort)
    } else {
        None
    }
}

/// Bool, where all the arguments have one sort.
fn on_equal(sorts: &[Sort]) -> Option<Sort>
    ensures { result ≡ on_equal sorts.now }
{
    let [first, rest @ ..] = sorts else {
        return None;
    };
    if are_all(first, rest) {
        Some(Sort::Bool)
    } else {
        None
    }
}

/// The sort of a choice between two terms of one sort.
fn choice_sort(alloc: Global, sorts: &[Sort]) -> Result<Option<Sort>, NoMemory>
    ensures { Gives result (choice_sort sorts.now) }
{
    match sorts {
        [condition, a, b] => {
            if same_sort(condition, &Sort::Bool) && same_sort(a, b) {
                Ok(Some(a.copy(alloc)?))
            } else {
                Ok(None)
            }
        }
        [] | [_] | [_, _] | [_, _, _, _, ..] => Ok(None),
    }
}

/// The sort of an array's elements.
fn element_of(sort: &Sort) -> Option<&Sort>
    ensures { MatchOption result (element_of sort.now ≡ None) (λ e. element_of sort.now ≡ Some e.now) }
{
    match sort {
        Sort::Array(element) => Some(element.get()),
        Sort::Bool | Sort::Int | Sort::Data(_) => None,
    }
}

/// The sort of an array read at an index.
fn read_sort(alloc: Global, sorts: &[Sort]) -> Result<Option<Sort>, NoMemory>
    ensures { Gives result (read_sort sorts.now) }
{
    match sorts {
        [array, index] => match element_of(array) {
            Some(element) if same_sort(index, &Sort::Int) => Ok(Some(element.copy(alloc)?)),
            _ => Ok(None),
        },
        [] | [_] | [_, _, _, ..] => Ok(None),
    }
}

/// The sort of an array written at an index.
fn write_sort(alloc: Global, sorts: &[Sort]) -> Result<Option<Sort>, NoMemory>
    ensures { Gives result (write_sort sorts.now) }
{
    match sorts {
        [array, index, value] => match element_of(array) {
            Some(element) if same_sort(index, &Sort::Int) && same_sort(value, element) => {
                Ok(Some(array.copy(alloc)?))
            }
            _ => Ok(None),
        },
        [] | [_] | [_, _] | [_, _, _, _, ..] => Ok(None),
    }
}

macro_rules! sorted {
    (truths $alloc:expr, $sorts:expr) => {
        Ok(on_all(Sort::Bool, Sort::Bool, $sorts))
    };
    (equal $alloc:expr, $sorts:expr) => {
        Ok(on_equal($sorts))
    };
    (choice $alloc:expr, $sorts:expr) => {
        choice_sort($alloc, $sorts)
    };
    (numbers $alloc:expr, $sorts:expr) => {
        Ok(on_all(Sort::Int, Sort::Int, $sorts))
    };
    (compared $alloc:expr, $sorts:expr) => {
        Ok(on_all(Sort::Int, Sort::Bool, $sorts))
    };
    (read $alloc:expr, $sorts:expr) => {
        read_sort($alloc, $sorts)
    };
    (written $alloc:expr, $sorts:expr) => {
        write_sort($alloc, $sorts)
    };
}

macro_rules! sorts_read {
    ([$alloc:expr, $op:expr, $given:expr] $($text:literal $read:ident $count:ident $sorts:ident $form:tt),*) => {
        match $op {
            $(ReadOp::$read => sorted!($sorts $alloc, $given),)*
        }
    };
}

/// The sort of an operator on arguments of these sorts.
fn sort_read_as(alloc: Global, op: ReadOp, sorts: &[Sort]) -> Result<Option<Sort>, NoMemory>
    ensures { Gives result (sort_read_as op sorts.now) }
{
    operator_rows!([sorts_read] alloc, op, sorts)
}

/// Whether the sorts are those of the fields.
fn are_fields(sorts: &[Sort], fields: &[Field]) -> bool
    ensures { result ≡ same_sorts sorts.now (map (λ (f : Field). f.sort) fields.now) }
{
    if sorts.len() != fields.len() {
        return false;
    }
    for (i, sort) in sorts.iter().enumerate() {
        if !same_sort(sort, &fields[i].sort) {
            return false;
        }
    }
    true
}

/// Whether there is one sort, and it is that one.
fn is_sole(sort: &Sort, sorts: &[Sort]) -> bool
    ensures { result ≡ same_sorts sorts.now (sort.now ∷ []) }
{
    match sorts {
        [other] => same_sort(other, sort),
        [] | [_, _, ..] => false,
    }
}

/// The fields of a constructor.
fn fields_of(sig: &Sig, d: u32, c: u32) -> Option<&[Field]>
    ensures { MatchOption result (fields_of sig.now d c ≡ None) (λ fields. fields_of sig.now d c ≡ Some (map (λ (f : Field). f.sort) fields.now)) }
{
    let constructor = sig.datatype(d)?.ctors.get(c as usize)?;
    Some(constructor.fields.as_slice())
}

/// The sort of a constructor on arguments of these sorts.
fn made_sort(sig: &Sig, d: u32, c: u32, sorts: &[Sort]) -> Option<Sort>
    ensures { result ≡ op_sort sig.now (op.Make d c) sorts.now }
{
    if are_fields(sorts, fields_of(sig, d, c)?) {
        Some(Sort::Data(d))
    } else {
        None
    }
}

/// The sort of a selector on an argument of that sort.
fn selected_sort(
    alloc: Global,
    sig: &Sig,
    d: u32,
    c: u32,
    i: u32,
    sorts: &[Sort],
) -> Result<Option<Sort>, NoMemory>
    ensures { Gives result (op_sort sig.now (op.Get d c i) sorts.now) }
{
    let Some(fields) = fields_of(sig, d, c) else {
        return Ok(None);
    };
    match fields.get(i as usize) {
        Some(field) if is_sole(&Sort::Data(d), sorts) => Ok(Some(field.sort.copy(alloc)?)),
        _ => Ok(None),
    }
}

/// The sort of a constant array of that sort on an argument of that sort.
fn constant_sort(alloc: Global, array: &Sort, sorts: &[Sort]) -> Result<Option<Sort>, NoMemory>
    ensures { Gives result (constant_sort (element_of array.now) sorts.now) }
{
    match array {
        Sort::Array(element) => {
            if is_sole(element.get(), sorts) {
                Ok(Some(array.copy(alloc)?))
            } else {
                Ok(None)
            }
        }
        Sort::Bool | Sort::Int | Sort::Data(_) => Ok(None),
    }
}

/// The sort of a declared name on arguments of these sorts.
fn declared_sort(alloc: Global, symbol: &Symbol, sorts: &[Sort]) -> Result<Option<Sort>, NoMemory>
    ensures { Gives result (declared_sort symbol.now sorts.now) }
{
    match symbol {
        Symbol::Pred(_, params) if same_sorts(sorts, params.as_slice()) => Ok(Some(Sort::Bool)),
        Symbol::Def(_, f) if same_sorts(sorts, f.params.as_slice()) => {
            Ok(Some(f.result.copy(alloc)?))
        }
        _ => Ok(None),
    }
}

/// The sort of a head on arguments of these sorts, where it takes them.
pub fn head_sort(
    alloc: Global,
    sig: &Sig,
    head: &Head,
    sorts: &[Sort],
) -> Result<Option<Sort>, NoMemory>
    ensures { Gives result (head_sort sig.now head.now sorts.now) }
{
    match head {
        Head::Operator(op) => sort_read_as(alloc, *op, sorts),
        Head::Make(d, c) => Ok(made_sort(sig, *d, *c, sorts)),
        Head::OfSort(d, c, sort) => Ok(if same_sort(sort, &Sort::Data(*d)) {
            made_sort(sig, *d, *c, sorts)
        } else {
            None
        }),
        Head::Get(d, c, i) => selected_sort(alloc, sig, *d, *c, *i, sorts),
        Head::Is(d, c) => Ok(if fields_of(sig, *d, *c).is_some()
            && is_sole(&Sort::Data(*d), sorts)
        {
            Some(Sort::Bool)
        } else {
            None
        }),
        Head::Divisible(_) => Ok(on_all(Sort::Int, Sort::Bool, sorts)),
        Head::Constant(array) => constant_sort(alloc, array, sorts),
        Head::Declared(symbol) => declared_sort(alloc, symbol, sorts),
    }
}
