//! States that are made, and clauses that are refused.

use crate::{Atom, Clause, PredDecl, State, StateErr, positions_fit};
use chc_sorts::{Limit, List, NoMemory, Op, Sig, Sort};
use chc_terms::Term;
use std::alloc::Global;
use std::test::Fail;

/// An operator on two terms.
fn binary(alloc: Global, op: Op, left: Term, right: Term) -> Result<Term, NoMemory> {
    let mut args = List::new(alloc);
    args.push(left)?;
    args.push(right)?;
    Ok(Term::App(op, args))
}

/// The conjunct of a letter, under a variable of sort Int and one of sort Bool.
fn conjunct(alloc: Global, letter: u8) -> Result<Option<Term>, NoMemory> {
    let term = match letter {
        b't' => Term::Lit(true),
        b'f' => Term::Lit(false),
        b'i' => Term::Var(0),
        b'b' => Term::Var(1),
        b'x' => Term::Var(2),
        b'q' => Term::Pred(0, List::new(alloc)),
        b'&' => binary(alloc, Op::And, Term::Var(1), Term::Var(1))?,
        b'<' => binary(alloc, Op::Lt, Term::Num(-i128::MAX), Term::Var(0))?,
        b'm' => binary(alloc, Op::Lt, Term::Num(i128::MIN), Term::Var(0))?,
        _ => return Ok(None),
    };
    Ok(Some(term))
}

/// The predicate of a letter's body atom and the variable that it is on. The first predicate is live, the second isn't,
/// and there is no third.
fn predicate(letter: u8) -> Option<(u32, u32)> {
    match letter {
        b'p' => Some((0, 0)),
        b'w' => Some((0, 1)),
        b'r' => Some((1, 0)),
        b'z' => Some((2, 0)),
        _ => None,
    }
}

/// Adds what the letter stands for to the clause: a conjunct, a body atom, a weight past its limit, or a variable of a
/// datatype that isn't there.
fn add(alloc: Global, clause: &mut Clause, letter: u8) -> Result<(), NoMemory> {
    if let Some(term) = conjunct(alloc, letter)? {
        clause.conj.push(term)?;
    } else if let Some((pred, var)) = predicate(letter) {
        let mut args = List::new(alloc);
        args.push(Term::Var(var))?;
        clause.body.push(Atom { pred, args })?;
    } else if letter == b'h' {
        clause.weight = 4_097;
    } else {
        clause.vars.push(Sort::Data(0))?;
    }
    Ok(())
}

/// The query of the letters.
fn query(alloc: Global, letters: &[u8]) -> Result<Clause, NoMemory> {
    let mut vars = List::new(alloc);
    vars.push(Sort::Int)?;
    vars.push(Sort::Bool)?;
    let mut clause = Clause {
        vars,
        conj: List::new(alloc),
        body: List::new(alloc),
        head: None,
        weight: 1,
    };
    for letter in letters {
        add(alloc, &mut clause, *letter)?;
    }
    Ok(clause)
}

/// A predicate on one Int.
fn on_number(alloc: Global, live: bool) -> Result<PredDecl, NoMemory> {
    let mut sorts = List::new(alloc);
    sorts.push(Sort::Int)?;
    Ok(PredDecl { sorts, live })
}

/// The queries of the text's words.
fn queries(alloc: Global, text: &[u8]) -> Result<List<Clause>, NoMemory> {
    let mut clauses = List::new(alloc);
    for word in text.split(|b| *b == b' ') {
        clauses.push(query(alloc, word)?)?;
    }
    Ok(clauses)
}

/// What is made of the two predicates and the queries of the text: how many clauses there are, or why it is no state.
fn made(alloc: Global, text: &[u8]) -> Result<usize, StateErr> {
    let mut preds = List::new(alloc);
    preds.push(on_number(alloc, true)?)?;
    preds.push(on_number(alloc, false)?)?;
    let clauses = queries(alloc, text)?;
    let sig = Sig::new(alloc);
    if preds.len() > 2 || clauses.len() > 1_000 || !positions_fit(&sig, &preds) {
        return Err(StateErr::NoMemory);
    }
    let state = State::make(alloc, sig, preds, clauses)?;
    Ok(state.clauses().len())
}

#[test]
fn clauses_that_are_not_well_formed(rt: HostRuntime) -> Result<(), Fail> {
    let alloc = rt.alloc();
    let rows: [&[u8]; 8] = [b"t", b"<&", b"i", b"x", b"q", b"m", b"d", b"w"];
    for (i, row) in rows.iter().enumerate() {
        assert_eq!(rt; made(alloc, row), Err(StateErr::BadClause(0)), "at {i}");
    }
    Ok(())
}

#[test]
fn clauses_on_other_predicates(rt: HostRuntime) -> Result<(), Fail> {
    let alloc = rt.alloc();
    let rows: [&[u8]; 4] = [b"p r", b"p z p", b"h pt h", b"b w t"];
    for (i, row) in rows.iter().enumerate() {
        assert_eq!(rt; made(alloc, row), Err(StateErr::BadClause(1)), "at {i}");
    }
    Ok(())
}

#[test]
fn states_that_are_made(rt: HostRuntime) -> Result<(), Fail> {
    let alloc = rt.alloc();
    assert_eq!(rt; made(alloc, b"p <bp f"), Ok(3));
    assert_eq!(rt; made(alloc, b"p h"), Err(StateErr::OverLimit(Limit::L15)));
    Ok(())
}
