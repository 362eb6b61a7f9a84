//! Terms that become the arguments of one.

ghost use Rattle.std.specs.Prelude.{◌≡◌, ◌<◌, ◌+◌, [], ◌∷◌, ◌++◌, IfErr, OnOk};
ghost use Rattle.chc_sorts.specs.declared.op.Op.TheVariants as op;
ghost use Rattle.chc_terms.specs.declared.term.Term.TheVariants.{App, Call, Pred, Num as num};
ghost use Rattle.chc_terms.specs.Counts.{size_all};
ghost use Rattle.chc_elab.specs.Building.{negated, pair, sole};
ghost use Rattle.chc_elab.specs.Builds.{Builds, Refused, joins};
ghost use Rattle.chc_elab.specs.Limits.{most_nodes};

use crate::build_err::BuildErr;
use crate::built::{Built, MOST_NODES};
use crate::joint::Joint;
use chc_sorts::{List, Op};
use chc_terms::Term;
use std::alloc::Global;
use std::marker::Model;

/// Terms that together are within the limit of nodes, with their sizes together and their greatest depth. Contracts
/// see them as the list of the terms.
#[derive(Drop)]
pub struct Pile {
    terms: List<Term>,
    size: u64,
    depth: u64,
}

impl Model for Pile {
    ghost use Rattle.std.specs.Prelude.{◌≡◌, ◌≤◌, List};
    ghost use Rattle.std.specs.Coded.{coded_list};
    ghost use Rattle.chc_terms.specs.declared.term.Term.{Term};
    ghost use Rattle.chc_terms.specs.contracts.term.Term as coded_term;
    ghost use Rattle.chc_terms.specs.Counts.{size_all, depth_all};
    ghost use Rattle.chc_elab.specs.Limits.{most_nodes};

    ghost Value = { List Term };

    ghost coded = { coded_list coded_term.the_row.coded };

    ghost view = { λ p. p.terms };

    ghost invariant = { λ p. (p.size ≡ size_all p.terms) × (p.depth ≡ depth_all p.terms) × (p.depth ≤ p.size) × (p.size ≤ most_nodes) };
}

impl Pile {
    /// No terms.
    pub fn new(alloc: Global) -> Pile
        ensures { result ≡ [] }
    {
        Pile {
            terms: List::new(alloc),
            size: 0,
            depth: 0,
        }
    }

    /// Adds a term at the end. Errors: `TooLarge` where they would together have too many nodes; `NoMemory`.
    pub fn push(&mut self, term: Built) -> Result<(), BuildErr>
        ensures added { OnOk result (self.new ≡ self.old ++ term ∷ []) }
        ensures large { Refused result (size_all (self.old ++ term ∷ [])) }
    {
        let size = self.size + term.size();
        if size > MOST_NODES {
            return Err(BuildErr::TooLarge);
        }
        let depth = self.depth.max(term.depth());
        self.terms.push(term.into_term())?;
        self.size = size;
        self.depth = depth;
        Ok(())
    }

    /// The operator on the terms.
    pub fn under(self, op: Op) -> Result<Built, BuildErr>
        ensures { Builds result (App op self) }
    {
        if self.size == MOST_NODES {
            return Err(BuildErr::TooLarge);
        }
        let Pile { terms, size, depth } = self;
        Ok(Built::of(Term::App(op, terms), size + 1, depth + 1))
    }

    /// The predicate on the terms.
    pub fn of_pred(self, p: u32) -> Result<Built, BuildErr>
        ensures { Builds result (Pred p self) }
    {
        if self.size == MOST_NODES {
            return Err(BuildErr::TooLarge);
        }
        let Pile { terms, size, depth } = self;
        Ok(Built::of(Term::Pred(p, terms), size + 1, depth + 1))
    }

    /// The definition on the terms.
    pub fn of_call(self, k: u64) -> Result<Built, BuildErr>
        ensures { Builds result (Call k self) }
    {
        if self.size == MOST_NODES {
            return Err(BuildErr::TooLarge);
        }
        let Pile { terms, size, depth } = self;
        Ok(Built::of(Term::Call(k, terms), size + 1, depth + 1))
    }

    /// The one term, or the operator on all of them.
    pub fn alone_or_under(self, op: Op) -> Result<Built, BuildErr>
        ensures { Builds result (sole op self) }
    {
        if self.terms.len() != 1 {
            return self.under(op);
        }
        let Pile {
            mut terms,
            size,
            depth,
        } = self;
        let term = terms.remove(0);
        Ok(Built::of(term, size, depth))
    }
}

/// A number.
pub fn number(n: i128) -> Built
    ensures { result ≡ num n }
{
    Built::of(Term::Num(n), 1, 1)
}

/// An operator on two terms.
pub fn pair(alloc: Global, op: Op, a: Built, b: Built) -> Result<Built, BuildErr>
    ensures { Builds result (pair op a b) }
{
    let mut pile = Pile::new(alloc);
    pile.push(a)?;
    pile.push(b)?;
    pile.under(op)
}

/// That the term isn't true.
pub fn negated(alloc: Global, term: Built) -> Result<Built, BuildErr>
    ensures { Builds result (negated term) }
{
    let mut pile = Pile::new(alloc);
    pile.push(term)?;
    pile.under(Op::Not)
}

/// Two terms, joined.
pub fn join(alloc: Global, joint: &Joint, a: Built, b: Built) -> Result<Built, BuildErr>
    ensures { Builds result (joins joint.now a b) }
{
    match joint {
        Joint::Pair(op) => pair(alloc, op.copy(alloc)?, a, b),
        Joint::Turned(op) => pair(alloc, op.copy(alloc)?, b, a),
        Joint::Differ => {
            let equation = pair(alloc, Op::Eq, a, b)?;
            negated(alloc, equation)
        }
    }
}
