//! Terms that are told apart.

ghost use Rattle.std.specs.Prelude.{◌≡◌, ◌↔◌, IsTrue};
ghost use Rattle.chc_sorts.specs.Sorts.{same_sort, same_sorts};
ghost use Rattle.chc_terms.specs.Alike.{same_kind as same_kind_of, same_op as same_op_of, same_term as same_term_of, same_terms as same_terms_of};

use crate::term::{Kind, Term, Terms};
use chc_sorts::{List, Op, Sort};

/// Whether the two are equal terms: the same variants all through, on the same numbers, sorts and operators.
pub fn alike(a: &Term, b: &Term) -> bool
    ensures { IsTrue result ↔ (a.now ≡ b.now) }
{
    is_same_term(a, b)
}

/// Whether the two are the same term.
#[cycle(same)]
#[tactic(auto, using(crate::proofs::AlikeLaws::levels))]
fn is_same_term(left: &Term, right: &Term) -> bool
    ensures { result ≡ same_term_of left.now right.now }
{
    match (left, right) {
        (Term::Var(left), Term::Var(right)) => *left == *right,
        (Term::Num(left), Term::Num(right)) => *left == *right,
        (Term::Lit(left), Term::Lit(right)) => *left == *right,
        (Term::App(left, args), Term::App(right, others)) => {
            is_same_op(left, right) && are_same_terms(args, others)
        }
        (Term::Pred(left, args), Term::Pred(right, others)) => {
            *left == *right && are_same_terms(args, others)
        }
        (Term::Quant(left, sorts, body), Term::Quant(right, others, other)) => {
            is_same_kind(*left, *right)
                && are_same_sorts(sorts, others)
                && is_same_term(body.get(), other.get())
        }
        (Term::Call(left, args), Term::Call(right, others)) => {
            *left == *right && are_same_terms(args, others)
        }
        _ => false,
    }
}

/// Whether the two lists have the same terms in order.
#[cycle(same)]
#[tactic(auto, using(crate::proofs::AlikeLaws::levels))]
fn are_same_terms(left: &Terms, right: &Terms) -> bool
    ensures { result ≡ same_terms_of left.now right.now }
{
    let others = right.as_slice();
    if left.len() != others.len() {
        return false;
    }
    for (i, term) in left.as_slice().iter().enumerate() {
        if !is_same_term(term, &others[i]) {
            return false;
        }
    }
    true
}

/// Whether the two are the same quantifier.
fn is_same_kind(left: Kind, right: Kind) -> bool
    ensures { result ≡ same_kind_of left right }
{
    match (left, right) {
        (Kind::Forall, Kind::Forall) => true,
        (Kind::Exists, Kind::Exists) => true,
        _ => false,
    }
}

/// Whether the two are the same operator, with the sort and the numbers that they hold.
fn is_same_op(left: &Op, right: &Op) -> bool
    ensures { result ≡ same_op_of left.now right.now }
{
    match (left, right) {
        (Op::Not, Op::Not) => true,
        (Op::And, Op::And) => true,
        (Op::Or, Op::Or) => true,
        (Op::Eq, Op::Eq) => true,
        (Op::Ite, Op::Ite) => true,
        (Op::Add, Op::Add) => true,
        (Op::Sub, Op::Sub) => true,
        (Op::Mul, Op::Mul) => true,
        (Op::Div, Op::Div) => true,
        (Op::Mod, Op::Mod) => true,
        (Op::Le, Op::Le) => true,
        (Op::Lt, Op::Lt) => true,
        (Op::Select, Op::Select) => true,
        (Op::Store, Op::Store) => true,
        (Op::Const(left), Op::Const(right)) => is_same_sort(left, right),
        (Op::Make(d, c), Op::Make(e, b)) => *d == *e && *c == *b,
        (Op::Get(d, c, i), Op::Get(e, b, j)) => *d == *e && *c == *b && *i == *j,
        (Op::Is(d, c), Op::Is(e, b)) => *d == *e && *c == *b,
        _ => false,
    }
}

/// Whether the two are the same sort.
#[tactic(auto, using(crate::proofs::AlikeLaws::sort_levels))]
fn is_same_sort(left: &Sort, right: &Sort) -> bool
    ensures { result ≡ same_sort left.now right.now }
{
    match (left, right) {
        (Sort::Bool, Sort::Bool) => true,
        (Sort::Int, Sort::Int) => true,
        (Sort::Data(left), Sort::Data(right)) => *left == *right,
        (Sort::Array(left), Sort::Array(right)) => is_same_sort(left.get(), right.get()),
        _ => false,
    }
}

/// Whether the two lists have the same sorts in order.
fn are_same_sorts(left: &List<Sort>, right: &List<Sort>) -> bool
    ensures { result ≡ same_sorts left.now right.now }
{
    let others = right.as_slice();
    if left.len() != others.len() {
        return false;
    }
    for (i, sort) in left.as_slice().iter().enumerate() {
        if !is_same_sort(sort, &others[i]) {
            return false;
        }
    }
    true
}
