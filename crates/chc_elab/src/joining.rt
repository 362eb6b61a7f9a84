//! Heads on their arguments.

ghost use Rattle.std.specs.Prelude.{◌≡◌, true, IfOk, IsTrue, length, map};
ghost use Rattle.chc_sorts.specs.Signature.{Signature};
ghost use Rattle.chc_terms.specs.declared.term.Term.{Term};
ghost use Rattle.chc_terms.specs.declared.term.Term.TheVariants.{Lit};
ghost use Rattle.chc_terms.specs.Sorted.{element_of};
ghost use Rattle.chc_elab.specs.declared.typed.Typed.{Typed};
ghost use Rattle.chc_elab.specs.Building.{constant, declared_term, head_takes, head_term, held, joined};
ghost use Rattle.chc_elab.specs.Builds.{Builds};
ghost use Rattle.chc_elab.specs.Sites.{Tells};

use crate::build_err::BuildErr;
use crate::built::{Built, MOST_LEVELS};
use crate::head::Head;
use crate::operation::{divisible, operation, piled};
use crate::place::fault;
use crate::sorting::head_sort;
use crate::symbols::Symbol;
use crate::typed::Typed;
use chc_sexpr::{Fault, TextErr};
use chc_sorts::{List, NoMemory, Op, Sig, Sort};
use chc_terms::Term;
use std::alloc::Global;

/// The sorts of terms.
fn sorts_of(alloc: Global, args: &[Typed]) -> Result<List<Sort>, NoMemory>
    ensures { IfOk result (λ sorts. sorts ≡ map (λ (t : Typed). t.sort) args.now) }
{
    let mut sorts = List::new(alloc);
    for arg in args {
        sorts.push(arg.sort.copy(alloc)?)?;
    }
    Ok(sorts)
}

/// The terms without their sorts.
fn terms_of(alloc: Global, args: List<Typed>) -> Result<List<Built>, NoMemory>
    ensures { IfOk result (λ terms. terms ≡ map (λ (t : Typed). t.term) args) }
{
    let mut terms = List::new(alloc);
    for arg in args.into_vec() {
        let Typed { term, .. } = arg;
        terms.push(term)?;
    }
    Ok(terms)
}

/// The term that a declared name stands for on these.
fn declared_term(alloc: Global, symbol: &Symbol, terms: List<Built>) -> Result<Built, BuildErr>
    ensures { Builds result (declared_term symbol.now terms) }
{
    let pile = piled(alloc, terms)?;
    match symbol {
        Symbol::Pred(p, _) => pile.of_pred(*p),
        Symbol::Def(k, _) => pile.of_call(*k),
    }
}

/// The term that a head stands for on these, of which there are as many as it takes.
fn head_term(alloc: Global, head: Head, terms: List<Built>) -> Result<Built, BuildErr>
    requires { (sig : Signature) × IsTrue (head_takes sig head (length terms)) }
    ensures { Builds result (head_term head terms) }
{
    match head {
        Head::Operator(op) => operation(alloc, op, terms),
        Head::Make(d, c) | Head::OfSort(d, c, _) => piled(alloc, terms)?.under(Op::Make(d, c)),
        Head::Get(d, c, i) => piled(alloc, terms)?.under(Op::Get(d, c, i)),
        Head::Is(d, c) => piled(alloc, terms)?.under(Op::Is(d, c)),
        Head::Divisible(n) => divisible(alloc, n, terms),
        Head::Constant(sort) => constant(alloc, sort, terms),
        Head::Declared(symbol) => declared_term(alloc, &symbol, terms),
    }
}

/// The constant array of that sort on these.
fn constant(alloc: Global, sort: Sort, terms: List<Built>) -> Result<Built, BuildErr>
    ensures { Builds result (constant (element_of sort) terms) }
{
    match sort {
        Sort::Array(element) => piled(alloc, terms)?.under(Op::Const(element.into_inner())),
        Sort::Bool | Sort::Int | Sort::Data(_) => Ok(truth()),
    }
}

/// `true`.
fn truth() -> Built
    ensures { result ≡ Lit true }
{
    Built::of(Term::Lit(true), 1, 1)
}

/// A term that is built, held to the limit of depth. Errors: `At` the place with `TooLarge` or `TooDeep`; `NoMemory`.
pub fn held(
    alloc: Global,
    place: u64,
    built: Result<Built, BuildErr>,
    sort: Sort,
) -> Result<Typed, TextErr>
    ensures { (t : Term) → Builds built t → Tells result (held place (record { term = t; sort = sort })) }
{
    match built {
        Ok(term) if term.depth() > MOST_LEVELS => fault(alloc, place, Fault::TooDeep),
        Ok(term) => Ok(Typed { term, sort }),
        Err(BuildErr::TooLarge) => fault(alloc, place, Fault::TooLarge),
        Err(BuildErr::NoMemory) => Err(TextErr::NoMemory),
    }
}

/// A head on its arguments, of which there are as many as it takes. Errors: `At` the place with `WrongSort`,
/// `TooLarge` or `TooDeep`, the first of them; `NoMemory`.
pub fn joined(
    alloc: Global,
    sig: &Sig,
    place: u64,
    head: Head,
    args: List<Typed>,
) -> Result<Typed, TextErr>
    requires { IsTrue (head_takes sig.now head (length args)) }
    ensures { Tells result (joined sig.now place head args) }
{
    let sorts = sorts_of(alloc, args.as_slice())?;
    let Some(sort) = head_sort(alloc, sig, &head, sorts.as_slice())? else {
        return fault(alloc, place, Fault::WrongSort);
    };
    let terms = terms_of(alloc, args)?;
    held(alloc, place, head_term(alloc, head, terms), sort)
}
