//! The quantifiers that stand in front of an assertion.

ghost use Rattle.std.specs.Prelude.{◌≡◌, IfOk};
ghost use Rattle.chc_script.specs.Fronts.{negates};
ghost use Rattle.chc_script.specs.Horn.{binds, prefix_of, seen};

use crate::horn::side::Side;
use chc_sorts::{List, NoMemory, Op, Sort, copy_sorts};
use chc_terms::{Kind, Term};
use std::alloc::Global;

/// An assertion without the quantifiers in front.
#[derive(Drop)]
pub struct Prefix<'a> {
    /// The sorts of their variables.
    pub vars: List<Sort>,
    /// Whether the assertion says the rest or its negation.
    pub side: Side,
    pub rest: &'a Term,
}

/// Whether a quantifier on a side is one over the clause's variables.
fn is_binder(kind: Kind, side: Side) -> bool
    ensures { result ≡ binds kind side }
{
    match (kind, side) {
        (Kind::Forall, Side::Concluded) | (Kind::Exists, Side::Assumed) => true,
        (Kind::Forall, Side::Assumed) | (Kind::Exists, Side::Concluded) => false,
    }
}

/// Whether the operator is a negation, and what it negates is read as an assumption.
fn is_negation(op: &Op, side: Side) -> bool
    ensures { result ≡ negates op.now side }
{
    match (op, side) {
        (Op::Not, Side::Concluded) => true,
        _ => false,
    }
}

/// The term on a side without the quantifiers in front of it, under these variables and theirs.
#[tactic(auto, using(crate::proofs::PrefixLaws::prefix_equations))]
pub fn prefix_of<'a>(
    alloc: Global,
    term: &'a Term,
    side: Side,
    mut vars: List<Sort>,
) -> Result<Prefix<'a>, NoMemory>
    ensures { IfOk result (λ prefix. seen prefix ≡ prefix_of term.now side vars) }
{
    let rest = term;
    match term {
        Term::Quant(kind, sorts, body) => {
            if !is_binder(*kind, side) {
                return Ok(Prefix { vars, side, rest });
            }
            vars.append(copy_sorts(alloc, sorts)?)?;
            prefix_of(alloc, body.get(), side, vars)
        }
        Term::App(op, args) => {
            if !is_negation(op, side) {
                return Ok(Prefix { vars, side, rest });
            }
            match args.as_slice() {
                [arg] => prefix_of(alloc, arg, Side::Assumed, vars),
                [] => Ok(Prefix { vars, side, rest }),
                [_, _, ..] => Ok(Prefix { vars, side, rest }),
            }
        }
        Term::Var(_) | Term::Num(_) | Term::Lit(_) | Term::Pred(_, _) | Term::Call(_, _) => {
            Ok(Prefix { vars, side, rest })
        }
    }
}
