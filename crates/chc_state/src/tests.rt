//! The limits, each at its greatest number and just past it.

use crate::{Atom, Clause, PredDecl, over};
use chc_sorts::{Limit, List, NoMemory, Op, Sort};
use chc_terms::{Term, Terms};
use std::alloc::Global;
use std::test::Fail;

/// The numbers of a small state: those of one clause, how many predicates it has and with how many
/// positions, and how many facts stand beside the clause.
#[derive(Clone, Copy)]
struct Shape {
    depth: usize,
    leaves: usize,
    vars: usize,
    atoms: usize,
    weight: u32,
    query: bool,
    preds: usize,
    positions: usize,
    facts: usize,
}

const SMALL: Shape = Shape {
    depth: 2,
    leaves: 2,
    vars: 1,
    atoms: 1,
    weight: 1,
    query: true,
    preds: 1,
    positions: 1,
    facts: 1,
};

/// A term of that depth, which is at least 1.
fn nested(alloc: Global, depth: usize) -> Result<Term, NoMemory> {
    let mut term = Term::Lit(true);
    for _ in 1..depth {
        let mut args = List::new(alloc);
        args.push(term)?;
        term = Term::App(Op::Not, args);
    }
    Ok(term)
}

/// As many leaves.
fn leaves(alloc: Global, count: usize) -> Result<Terms, NoMemory> {
    let mut terms = List::new(alloc);
    for _ in 0..count {
        terms.push(Term::Lit(true))?;
    }
    Ok(terms)
}

/// As many sorts.
fn sorts(alloc: Global, count: usize) -> Result<List<Sort>, NoMemory> {
    let mut sorts = List::new(alloc);
    for _ in 0..count {
        sorts.push(Sort::Int)?;
    }
    Ok(sorts)
}

/// As many atoms without arguments.
fn atoms(alloc: Global, count: usize) -> Result<List<Atom>, NoMemory> {
    let mut atoms = List::new(alloc);
    for _ in 0..count {
        let args = List::new(alloc);
        atoms.push(Atom { pred: 0, args })?;
    }
    Ok(atoms)
}

/// As many live predicates.
fn decls(alloc: Global, count: usize, positions: usize) -> Result<List<PredDecl>, NoMemory> {
    let mut decls = List::new(alloc);
    for _ in 0..count {
        let sorts = sorts(alloc, positions)?;
        decls.push(PredDecl { sorts, live: true })?;
    }
    Ok(decls)
}

/// A clause with the head `(p x0 x0)` and nothing else.
fn fact(alloc: Global) -> Result<Clause, NoMemory> {
    let mut args = List::new(alloc);
    args.push(Term::Var(0))?;
    args.push(Term::Var(0))?;
    Ok(Clause {
        vars: sorts(alloc, 1)?,
        conj: List::new(alloc),
        body: List::new(alloc),
        head: Some(Atom { pred: 0, args }),
        weight: 1,
    })
}

/// The clause of the shape.
fn clause(alloc: Global, shape: Shape) -> Result<Clause, NoMemory> {
    let mut conj = leaves(alloc, shape.leaves)?;
    conj.push(nested(alloc, shape.depth)?)?;
    let head = if shape.query {
        None
    } else {
        Some(Atom {
            pred: 0,
            args: List::new(alloc),
        })
    };
    Ok(Clause {
        vars: sorts(alloc, shape.vars)?,
        conj,
        body: atoms(alloc, shape.atoms)?,
        head,
        weight: shape.weight,
    })
}

/// The limit that the shape passes.
fn passed(alloc: Global, shape: Shape) -> Result<Option<Limit>, NoMemory> {
    let preds = decls(alloc, shape.preds, shape.positions)?;
    let mut clauses = List::new(alloc);
    clauses.push(clause(alloc, shape)?)?;
    for _ in 0..shape.facts {
        clauses.push(fact(alloc)?)?;
    }
    Ok(over(&preds, &clauses))
}

#[test]
fn limits_are_passed_by_one_more(rt: HostRuntime) -> Result<(), Fail> {
    let alloc = rt.alloc();
    let rows = [
        (SMALL, None),
        (
            Shape {
                depth: 900,
                ..SMALL
            },
            None,
        ),
        (
            Shape {
                depth: 901,
                ..SMALL
            },
            Some(Limit::L4),
        ),
        (
            Shape {
                leaves: 262_140,
                ..SMALL
            },
            None,
        ),
        (
            Shape {
                leaves: 262_141,
                ..SMALL
            },
            Some(Limit::L5),
        ),
        (
            Shape {
                preds: 65_536,
                ..SMALL
            },
            None,
        ),
        (
            Shape {
                preds: 65_537,
                ..SMALL
            },
            Some(Limit::L7),
        ),
        (
            Shape {
                preds: 65_536,
                query: false,
                ..SMALL
            },
            Some(Limit::L7),
        ),
        (
            Shape {
                positions: 1_024,
                ..SMALL
            },
            None,
        ),
        (
            Shape {
                positions: 1_025,
                ..SMALL
            },
            Some(Limit::L8),
        ),
        (
            Shape {
                facts: 65_535,
                ..SMALL
            },
            None,
        ),
        (
            Shape {
                facts: 65_536,
                ..SMALL
            },
            Some(Limit::L9),
        ),
        (
            Shape {
                facts: 65_535,
                query: false,
                ..SMALL
            },
            Some(Limit::L9),
        ),
        (
            Shape {
                vars: 4_096,
                ..SMALL
            },
            None,
        ),
        (
            Shape {
                vars: 4_097,
                ..SMALL
            },
            Some(Limit::L10),
        ),
        (
            Shape {
                atoms: 256,
                ..SMALL
            },
            None,
        ),
        (
            Shape {
                atoms: 257,
                ..SMALL
            },
            Some(Limit::L11),
        ),
        (
            Shape {
                weight: 4_096,
                ..SMALL
            },
            None,
        ),
        (
            Shape {
                weight: 4_097,
                ..SMALL
            },
            Some(Limit::L15),
        ),
    ];
    for (i, (shape, limit)) in rows.iter().enumerate() {
        assert_eq!(rt; passed(alloc, *shape)?, *limit, "at {i}");
    }
    Ok(())
}

#[test]
fn a_repeated_head_variable_is_filled(rt: HostRuntime) -> Result<(), Fail> {
    let clause = fact(rt.alloc())?;
    assert_eq!(rt; clause.charge(), 6);
    assert_eq!(rt; clause.width(), 2);
    assert!(rt; !clause.is_query());
    Ok(())
}
