//! Value terms.

ghost use Rattle.std.specs.Prelude.{◌≡◌, map};
ghost use Rattle.std.specs.List.{list_all};
ghost use Rattle.chc_terms.specs.ValueTerms.{is_make as makes, is_value_term as is_value};

use crate::term::{Term, Terms};
use chc_sorts::Op;

/// Whether the term is a number, a truth value, or a constructor over such terms.
#[cycle(value)]
#[tactic(auto, using(crate::proofs::ValueTermLaws::equations))]
pub fn is_value_term(t: &Term) -> bool
    ensures { result ≡ is_value t.now }
{
    match t {
        Term::Num(_) | Term::Lit(_) => true,
        Term::App(op, ts) => is_make(op) && are_value_terms(ts),
        Term::Var(_) | Term::Pred(_, _) | Term::Quant(_, _, _) | Term::Call(_, _) => false,
    }
}

/// Whether each of the terms is a value term.
#[cycle(value)]
#[tactic(auto, using(crate::proofs::ValueTermLaws::equations))]
fn are_value_terms(ts: &Terms) -> bool
    ensures { result ≡ list_all (λ b. b) (map is_value ts.now) }
{
    for t in ts.as_slice() {
        if !is_value_term(t) {
            return false;
        }
    }
    true
}

/// Whether the operator makes a datatype's value.
fn is_make(op: &Op) -> bool
    ensures { result ≡ makes op.now }
{
    match op {
        Op::Make(_, _) => true,
        _ => false,
    }
}
