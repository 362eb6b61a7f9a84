//! Clauses of assertions.

use crate::horn::{HornErr, clause_of};
use crate::shown::show_clause;
use chc_sorts::{Boxed, List, NoMemory, Op, Sort};
use chc_source::ByteText;
use chc_terms::{Kind, Term, Terms};
use std::alloc::Global;

/// The condition `x0 <= 0`.
fn condition(alloc: Global) -> Result<Term, NoMemory> {
    let mut args = List::new(alloc);
    args.push(Term::Var(0))?;
    args.push(Term::Num(0))?;
    Ok(Term::App(Op::Le, args))
}

/// The predicate of that number on x0.
fn atom(alloc: Global, pred: u32) -> Result<Term, NoMemory> {
    let mut args = List::new(alloc);
    args.push(Term::Var(0))?;
    Ok(Term::Pred(pred, args))
}

fn negated(alloc: Global, made: &mut Terms) -> Result<Option<Term>, NoMemory> {
    let Some(term) = made.pop() else {
        return Ok(None);
    };
    let mut args = List::new(alloc);
    args.push(term)?;
    Ok(Some(Term::App(Op::Not, args)))
}

fn joined(alloc: Global, op: Op, made: &mut Terms) -> Result<Option<Term>, NoMemory> {
    let Some(right) = made.pop() else {
        return Ok(None);
    };
    let Some(left) = made.pop() else {
        return Ok(None);
    };
    let mut args = List::new(alloc);
    args.push(left)?;
    args.push(right)?;
    Ok(Some(Term::App(op, args)))
}

fn quantified(alloc: Global, kind: Kind, made: &mut Terms) -> Result<Option<Term>, NoMemory> {
    let Some(body) = made.pop() else {
        return Ok(None);
    };
    let mut sorts = List::new(alloc);
    sorts.push(Sort::Int)?;
    let body = Boxed::new(alloc, body)?;
    Ok(Some(Term::Quant(kind, sorts, body)))
}

/// The term that a letter makes of those before it.
fn next_term(alloc: Global, letter: u8, made: &mut Terms) -> Result<Option<Term>, NoMemory> {
    match letter {
        b'c' => Ok(Some(condition(alloc)?)),
        b'p' => Ok(Some(atom(alloc, 0)?)),
        b'q' => Ok(Some(atom(alloc, 1)?)),
        b't' => Ok(Some(Term::Lit(true))),
        b'f' => Ok(Some(Term::Lit(false))),
        b'!' => negated(alloc, made),
        b'&' => joined(alloc, Op::And, made),
        b'|' => joined(alloc, Op::Or, made),
        b'A' => quantified(alloc, Kind::Forall, made),
        b'E' => quantified(alloc, Kind::Exists, made),
        _ => Ok(None),
    }
}

/// The term that a word in postfix notation stands for.
fn term_of(alloc: Global, word: &[u8]) -> Result<Option<Term>, NoMemory> {
    let mut made = List::new(alloc);
    for letter in word {
        match next_term(alloc, *letter, &mut made)? {
            Some(term) => made.push(term)?,
            None => return Ok(None),
        }
    }
    Ok(made.pop())
}

/// The clause of an assertion, or why it has none.
fn shown(alloc: Global, assertion: &Term) -> Result<ByteText, NoMemory> {
    let mut out = ByteText::new(alloc);
    match clause_of(alloc, assertion) {
        Ok(clause) => show_clause(alloc, &mut out, &clause)?,
        Err(HornErr::QuantInside) => out.extend(b"quantifier inside\n")?,
        Err(HornErr::NotHorn) => out.extend(b"not Horn\n")?,
        Err(HornErr::NoMemory) => return Err(NoMemory),
    }
    Ok(out)
}

/// Whether the clause of the assertion is shown so, or `None` where memory was refused.
fn is_shown(alloc: Global, word: &[u8], wanted: &[u8]) -> Option<bool> {
    match term_of(alloc, word) {
        Ok(Some(assertion)) => match shown(alloc, &assertion) {
            Ok(text) => Some(text.bytes() == wanted),
            Err(_) => None,
        },
        Ok(None) => Some(false),
        Err(_) => None,
    }
}

#[test]
fn assertions_say_clauses(rt: HostRuntime) {
    let words = [
        b"c!p|A".as_slice(),
        b"qc&!p|A",
        b"pc&E!",
        b"pq|A",
        b"pA!A",
        b"pq|!A",
        b"cp!|!!A",
        b"ft!|c&!",
    ];
    let wanted = [
        b"1 1: (<= x0 0) | => (0 x0)\n".as_slice(),
        b"1 1: (<= x0 0) | (1 x0) => (0 x0)\n",
        b"1 1: (<= x0 0) | (0 x0) =>\n",
        b"not Horn\n",
        b"quantifier inside\n",
        b"not Horn\n",
        b"1 1: (not (<= x0 0)) | (0 x0) =>\n",
        b"0 1: (or false (not true)) (<= x0 0) | =>\n",
    ];
    for (word, wanted) in words.iter().zip(wanted) {
        assert!(rt; is_shown(rt.alloc(), word, wanted) == Some(true));
    }
}
