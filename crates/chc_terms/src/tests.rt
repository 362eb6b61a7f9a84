//! Sizes, depths and copies of small terms.

use crate::{Kind, Term, Terms, depth, size};
use chc_sorts::{Boxed, List, NoMemory, Op, Sort};
use std::alloc::Global;
use std::test::Fail;

/// The terms that an atom has as arguments here: an array's variable, a number and a truth value.
fn arguments(alloc: Global) -> Result<Terms, NoMemory> {
    let mut args = List::new(alloc);
    args.push(Term::Var(0))?;
    args.push(Term::Num(-2))?;
    args.push(Term::Lit(true))?;
    Ok(args)
}

/// For all arrays the atom holds.
fn quantified(alloc: Global) -> Result<Term, NoMemory> {
    let mut sorts = List::new(alloc);
    sorts.push(Sort::Array(Boxed::new(alloc, Sort::Int)?))?;
    let atom = Term::Pred(3, arguments(alloc)?);
    Ok(Term::Quant(Kind::Forall, sorts, Boxed::new(alloc, atom)?))
}

/// Seven nodes, of which a longest branch has four.
fn example(alloc: Global) -> Result<Term, NoMemory> {
    let mut parts = List::new(alloc);
    parts.push(Term::Call(7, List::new(alloc)))?;
    parts.push(quantified(alloc)?)?;
    Ok(Term::App(Op::And, parts))
}

#[test]
fn nodes_are_counted(rt: HostRuntime) -> Result<(), Fail> {
    let term = example(rt.alloc())?;
    assert_eq!(rt; size(&Term::Num(5)), 1);
    assert_eq!(rt; depth(&Term::Num(5)), 1);
    assert_eq!(rt; size(&term), 7);
    assert_eq!(rt; depth(&term), 4);
    Ok(())
}

#[test]
fn copies_are_equal(rt: HostRuntime) -> Result<(), Fail> {
    let alloc = rt.alloc();
    let term = example(alloc)?;
    let copy = term.copy(alloc)?;
    let first = format!(in alloc; "{term:?}")?;
    let second = format!(in alloc; "{copy:?}")?;
    assert_eq!(rt; first.as_str(), second.as_str());
    Ok(())
}
