//! The sorts of small terms, each written with its arguments first, a letter a node.

use crate::context::SortErr;
use crate::{Context, FunSort, Kind, Term, sort_of};
use chc_sorts::{Boxed, List, NoMemory, Op, Sig, Sort};
use std::alloc::Global;
use std::test::Fail;

/// How many of the terms before it a letter takes as arguments.
fn count_of(letter: u8) -> usize {
    match letter {
        b'!' | b'1' | b'c' | b'd' | b'p' | b'A' | b'D' | b'E' => 1,
        b'&' | b'=' | b'+' | b'<' | b'[' | b'f' => 2,
        b'?' | b']' => 3,
        _ => 0,
    }
}

/// The term of a letter without arguments: an array, a number and a truth value as variables, and a fourth one.
fn leaf(letter: u8) -> Option<Term> {
    match letter {
        b'a' => Some(Term::Var(0)),
        b'i' => Some(Term::Var(1)),
        b'b' => Some(Term::Var(2)),
        b'v' => Some(Term::Var(3)),
        b'7' => Some(Term::Num(7)),
        b't' => Some(Term::Lit(true)),
        _ => None,
    }
}

/// The operator of a letter.
fn op_of(letter: u8) -> Op {
    match letter {
        b'!' => Op::Not,
        b'=' => Op::Eq,
        b'+' => Op::Add,
        b'<' => Op::Lt,
        b'[' => Op::Select,
        b']' => Op::Store,
        b'?' => Op::Ite,
        b'c' => Op::Const(Sort::Int),
        b'd' | b'x' => Op::Const(Sort::Data(0)),
        b'm' => Op::Make(0, 0),
        _ => Op::And,
    }
}

/// A quantifier on the last of the terms, over a variable of the sort or over nothing.
fn quantifier(alloc: Global, sort: Option<Sort>, args: List<Term>) -> Result<Term, NoMemory> {
    let mut args = args;
    let mut sorts = List::new(alloc);
    if let Some(sort) = sort {
        sorts.push(sort)?;
    }
    let body = args.pop().unwrap_or(Term::Lit(true));
    Ok(Term::Quant(Kind::Forall, sorts, Boxed::new(alloc, body)?))
}

/// The node of a letter on arguments.
fn node(alloc: Global, letter: u8, args: List<Term>) -> Result<Term, NoMemory> {
    match letter {
        b'p' | b'P' => Ok(Term::Pred(0, args)),
        b'q' => Ok(Term::Pred(1, args)),
        b'f' => Ok(Term::Call(0, args)),
        b'g' => Ok(Term::Call(1, args)),
        b'A' => quantifier(alloc, Some(Sort::Int), args),
        b'D' => quantifier(alloc, Some(Sort::Data(0)), args),
        b'E' => quantifier(alloc, None, args),
        _ => Ok(Term::App(op_of(letter), args)),
    }
}

/// Adds the term of the letter, in place of its arguments.
fn add(alloc: Global, terms: &mut Vec<Term>, letter: u8) -> Result<(), NoMemory> {
    if let Some(term) = leaf(letter) {
        terms.push(term)?;
        return Ok(());
    }
    let from = terms.len().saturating_sub(count_of(letter));
    let args = List::from_vec(terms.split_off(from)?);
    terms.push(node(alloc, letter, args)?)?;
    Ok(())
}

/// The answer in one word.
fn word_of(answer: &Result<Sort, SortErr>) -> &'static [u8] {
    match answer {
        Ok(Sort::Int) => b"Int",
        Ok(Sort::Bool) => b"Bool",
        Ok(Sort::Array(_) | Sort::Data(_)) => b"another sort",
        Err(SortErr::Unbound) => b"Unbound",
        Err(SortErr::WrongCount) => b"WrongCount",
        Err(SortErr::WrongSort) => b"WrongSort",
        Err(SortErr::NoMemory) => b"NoMemory",
    }
}

/// Whether each of the terms, which end at a blank, is answered so.
fn give(alloc: Global, cx: &Context<'_>, letters: &[u8], wanted: &[u8]) -> Result<bool, NoMemory> {
    let mut terms: Vec<Term> = Vec::new(alloc);
    for letter in letters {
        if *letter != b' ' {
            add(alloc, &mut terms, *letter)?;
            continue;
        }
        let term = terms.pop().unwrap_or(Term::Lit(true));
        if word_of(&sort_of(alloc, &term, cx)) != wanted {
            return Ok(false);
        }
    }
    Ok(true)
}

/// The sorts of the variables: an array, a number and a truth value.
fn variables(alloc: Global) -> Result<List<Sort>, NoMemory> {
    let mut vars = List::new(alloc);
    vars.push(Sort::Array(Boxed::new(alloc, Sort::Int)?))?;
    vars.push(Sort::Int)?;
    vars.push(Sort::Bool)?;
    Ok(vars)
}

/// One predicate, of a number.
fn predicates(alloc: Global) -> Result<List<List<Sort>>, NoMemory> {
    let mut positions = List::new(alloc);
    positions.push(Sort::Int)?;
    let mut preds = List::new(alloc);
    preds.push(positions)?;
    Ok(preds)
}

/// One definition, of a number and a truth value, which gives a number.
fn definitions(alloc: Global) -> Result<List<FunSort>, NoMemory> {
    let mut params = List::new(alloc);
    params.push(Sort::Int)?;
    params.push(Sort::Bool)?;
    let mut defs = List::new(alloc);
    defs.push(FunSort {
        params,
        result: Sort::Int,
    })?;
    Ok(defs)
}

/// Whether each of the terms is answered so, where there is no datatype.
fn all_give(alloc: Global, letters: &[u8], wanted: &[u8]) -> Result<bool, NoMemory> {
    let sig = Sig::new(alloc);
    let vars = variables(alloc)?;
    let preds = predicates(alloc)?;
    let defs = definitions(alloc)?;
    let cx = Context {
        sig: &sig,
        vars: &vars,
        preds: &preds,
        defs: &defs,
    };
    give(alloc, &cx, letters, wanted)
}

#[test]
fn terms_are_judged(rt: HostRuntime) -> Result<(), Fail> {
    let rows = [
        (b"ai[7+ bii? ibf ".as_slice(), b"Int".as_slice()),
        (b"ai7]7c= vpAb& v7<A! ", b"Bool"),
        (b"v vpAvp& q g m 7d tD x iv& vb1& ", b"Unbound"),
        (b"b1 P tE v1 b1v& ", b"WrongCount"),
        (b"b7= ib& bp vA ab[ ", b"WrongSort"),
    ];
    for (letters, wanted) in rows {
        assert!(rt; all_give(rt.alloc(), letters, wanted)?);
    }
    Ok(())
}
