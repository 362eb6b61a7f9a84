//! The parts of a clause while they are collected.

ghost use Rattle.std.specs.Prelude.{◌≡◌, [], ◌∷◌, None, IfOk};
ghost use Rattle.chc_sorts.specs.declared.op.Op.TheVariants.{Not};
ghost use Rattle.chc_terms.specs.declared.term.Term.TheVariants.{App};
ghost use Rattle.chc_script.specs.Horn.{Answers, no_parts, with_atom, with_condition};

use crate::horn::refusal::HornErr;
use crate::horn::side::Side;
use chc_sorts::{List, NoMemory, Op};
use chc_state::Atom;
use chc_terms::Term;
use std::alloc::Global;

/// What was found so far: conditions, atoms that are assumed, and the atom that is concluded, if any.
#[derive(Drop)]
pub struct Parts {
    pub conj: List<Term>,
    pub body: List<Atom>,
    pub head: Option<Atom>,
}

/// The negation of a term.
fn negation(alloc: Global, term: Term) -> Result<Term, NoMemory>
    ensures { IfOk result (λ negated. negated ≡ App Not (term ∷ [])) }
{
    let mut operands = List::new(alloc);
    operands.push(term)?;
    Ok(Term::App(Op::Not, operands))
}

impl Parts {
    /// Nothing found yet.
    pub fn new(alloc: Global) -> Parts
        ensures { result ≡ no_parts }
    {
        Parts {
            conj: List::new(alloc),
            body: List::new(alloc),
            head: None,
        }
    }

    /// With a term without predicates: the term is a condition where it is assumed, and else its negation.
    pub fn with_condition(self, alloc: Global, term: Term, side: Side) -> Result<Parts, NoMemory>
        ensures { IfOk result (λ parts. parts ≡ with_condition side term self) }
    {
        let condition = match side {
            Side::Concluded => negation(alloc, term)?,
            Side::Assumed => term,
        };
        let Parts {
            mut conj,
            body,
            head,
        } = self;
        conj.push(condition)?;
        Ok(Parts { conj, body, head })
    }

    /// With an atom: a body atom where it is assumed, and else the head. Errors: `NotHorn` where there is a head already;
    /// `NoMemory`.
    pub fn with_atom(self, atom: Atom, side: Side) -> Result<Parts, HornErr>
        ensures { Answers result (with_atom side atom self) }
    {
        let Parts {
            conj,
            mut body,
            head,
        } = self;
        match side {
            Side::Assumed => {
                body.push(atom)?;
                Ok(Parts { conj, body, head })
            }
            Side::Concluded => match head {
                Some(_) => Err(HornErr::NotHorn),
                None => Ok(Parts {
                    conj,
                    body,
                    head: Some(atom),
                }),
            },
        }
    }
}
