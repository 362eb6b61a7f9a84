//! The terms.

ghost use Rattle.std.specs.Prelude.{◌≡◌, IfOk};

use chc_sorts::{Boxed, List, NoMemory, Op, Sort, copy_sorts};
use std::alloc::Global;

/// Which quantifier.
#[derive(Clone, Copy, Debug, PartialEq, Eq)]
pub enum Kind {
    Forall,
    Exists,
}

/// A term. Variables are numbered from the outside: under n variables a quantifier over k sorts
/// binds the numbers n to n + k - 1. A quantifier binds at least one sort, and `And` and `Or` have
/// at least two arguments.
#[derive(Debug, Drop)]
pub enum Term {
    Var(u32),
    Num(i128),
    Lit(bool),
    App(Op, List<Self>),
    /// An atom: the predicate's number, and its arguments.
    Pred(u32, List<Self>),
    Quant(Kind, List<Sort>, Boxed<Self>),
    /// A call of the definition of that number in a list of definitions.
    Call(u64, List<Self>),
}

/// Terms in order.
pub type Terms = List<Term>;

impl Term {
    /// An equal term on fresh memory.
    #[cycle(copy)]
    pub fn copy(&self, alloc: Global) -> Result<Term, NoMemory>
        ensures { IfOk result (λ t. t ≡ self.now) }
    {
        match self {
            Term::Var(i) => Ok(Term::Var(*i)),
            Term::Num(n) => Ok(Term::Num(*n)),
            Term::Lit(b) => Ok(Term::Lit(*b)),
            Term::App(op, ts) => {
                let op = op.copy(alloc)?;
                Ok(Term::App(op, copy_terms(alloc, ts)?))
            }
            Term::Pred(p, ts) => Ok(Term::Pred(*p, copy_terms(alloc, ts)?)),
            Term::Quant(kind, sorts, body) => {
                let sorts = copy_sorts(alloc, sorts)?;
                let body = body.get().copy(alloc)?;
                Ok(Term::Quant(*kind, sorts, Boxed::new(alloc, body)?))
            }
            Term::Call(k, ts) => Ok(Term::Call(*k, copy_terms(alloc, ts)?)),
        }
    }
}

/// Equal terms on fresh memory, in the same order.
#[cycle(copy)]
pub fn copy_terms(alloc: Global, ts: &Terms) -> Result<Terms, NoMemory>
    ensures { IfOk result (λ l. l ≡ ts.now) }
{
    let mut copies = List::new(alloc);
    for t in ts.as_slice() {
        copies.push(t.copy(alloc)?)?;
    }
    Ok(copies)
}
