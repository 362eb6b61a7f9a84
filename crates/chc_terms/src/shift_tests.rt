//! Small terms that are counted, told apart and given room for other variables.

ghost use Rattle.std.specs.Prelude.{◌≡◌, ℕ, ◌+◌, ◌<◌, ◌^◌, [], ◌∷◌, IfOk, IsTrue};
ghost use Rattle.chc_terms.specs.declared.term.Term.TheVariants.{Quant};
ghost use Rattle.chc_terms.specs.Shifted.{can_shift};

use crate::{Kind, Term, Terms, alike, is_value_term, occurs, occurs_all, shift, shift_all};
use chc_sorts::{Boxed, List, NoMemory, Op, Sort};
use std::alloc::Global;
use std::test::Fail;

/// The two terms in order.
fn pair(alloc: Global, first: Term, second: Term) -> Result<Terms, NoMemory>
    ensures { IfOk result (λ l. l ≡ first ∷ second ∷ []) }
{
    let mut terms = List::new(alloc);
    terms.push(first)?;
    terms.push(second)?;
    Ok(terms)
}

/// The quantifier over one variable of the sort.
fn over(alloc: Global, kind: Kind, sort: Sort, body: Term) -> Result<Term, NoMemory>
    ensures { IfOk result (λ t. t ≡ Quant kind (sort ∷ []) body) }
{
    let mut sorts = List::new(alloc);
    sorts.push(sort)?;
    Ok(Term::Quant(kind, sorts, Boxed::new(alloc, body)?))
}

/// `xi = -2`, and for all integers an atom of `xj` and `xk`.
#[tactic(auto, using(crate::proofs::ShiftedLaws::equations))]
fn sample(alloc: Global, i: u32, j: u32, k: u32) -> Result<Term, NoMemory>
    ensures { IfOk result (λ t. (from up : ℕ) → i + up < 2 ^ 32 → j + up < 2 ^ 32 → k + up < 2 ^ 32 → IsTrue (can_shift t from up)) }
{
    let equation = Term::App(Op::Eq, pair(alloc, Term::Var(i), Term::Num(-2))?);
    let atom = Term::Pred(3, pair(alloc, Term::Var(j), Term::Var(k))?);
    let all = over(alloc, Kind::Forall, Sort::Int, atom)?;
    Ok(Term::App(Op::And, pair(alloc, equation, all)?))
}

#[test]
fn variables_are_counted_under_quantifiers_too(rt: HostRuntime) -> Result<(), Fail> {
    let term = sample(rt.alloc(), 0, 1, 1)?;
    assert_eq!(rt; occurs(&term, 0), 1);
    assert_eq!(rt; occurs(&term, 1), 2);
    assert_eq!(rt; occurs(&term, 4_294_967_295), 0);
    let terms = pair(rt.alloc(), term, Term::Var(1))?;
    assert_eq!(rt; occurs_all(&terms, 1), 3);
    Ok(())
}

/// Whether the sample of the variables 0, 1 and 2 is shifted to that of i, j and k.
fn goes_to(alloc: Global, from: u32, up: u32, numbers: [u32; 3]) -> Result<bool, NoMemory>
    requires { up + 2 < 2 ^ 32 }
{
    let [i, j, k] = numbers;
    let term = sample(alloc, 0, 1, 2)?;
    let made = shift(alloc, &term, from, up)?;
    let expected = sample(alloc, i, j, k)?;
    Ok(alike(&made, &expected))
}

#[test]
fn variables_make_room(rt: HostRuntime) -> Result<(), Fail> {
    let alloc = rt.alloc();
    assert!(rt; goes_to(alloc, 1, 3, [0, 4, 5])?);
    assert!(rt; goes_to(alloc, 0, 0, [0, 1, 2])?);
    assert!(rt; goes_to(alloc, 2, 1, [0, 1, 3])?);
    assert!(rt; goes_to(alloc, 3, 7, [0, 1, 2])?);
    assert!(rt;
        goes_to(
            alloc,
            0,
            4_294_967_293,
            [4_294_967_293, 4_294_967_294, 4_294_967_295]
        )?
    );
    Ok(())
}

/// The variables 0 and 2, where another one is put in before the number 1.
#[tactic(auto, using(crate::proofs::ShiftedLaws::equations))]
fn shifted_pair(alloc: Global) -> Result<Terms, NoMemory> {
    let terms = pair(alloc, Term::Var(0), Term::Var(2))?;
    shift_all(alloc, &terms, 1, 1)
}

#[test]
fn lists_make_room(rt: HostRuntime) -> Result<(), Fail> {
    let made = shifted_pair(rt.alloc())?;
    assert_eq!(rt; made.len(), 2);
    assert_eq!(rt; occurs_all(&made, 0), 1);
    assert_eq!(rt; occurs_all(&made, 3), 1);
    Ok(())
}

/// An application of the operator to no terms.
fn alone(alloc: Global, op: Op) -> Term {
    Term::App(op, List::new(alloc))
}

/// Fifteen terms that all differ, the first three of them value terms.
fn different(alloc: Global, n: u32) -> Result<Term, NoMemory> {
    match n {
        0 => Ok(Term::Num(1)),
        1 => Ok(Term::Lit(true)),
        2 => Ok(Term::App(
            Op::Make(0, 1),
            pair(alloc, Term::Num(2), alone(alloc, Op::Make(0, 0)))?,
        )),
        3 => Ok(Term::App(Op::Make(0, 1), pair(alloc, Term::Num(2), Term::Var(0))?)),
        4 => Ok(Term::App(Op::Add, pair(alloc, Term::Num(1), Term::Num(1))?)),
        5 => Ok(Term::Var(1)),
        6 => Ok(Term::Pred(1, List::new(alloc))),
        7 => Ok(Term::Call(1, List::new(alloc))),
        8 => Ok(alone(alloc, Op::Const(Sort::Int))),
        9 => Ok(alone(alloc, Op::Const(Sort::Bool))),
        10 => Ok(alone(alloc, Op::Get(0, 1, 2))),
        11 => Ok(alone(alloc, Op::Get(0, 1, 1))),
        12 => over(alloc, Kind::Forall, Sort::Int, Term::Lit(true)),
        13 => over(alloc, Kind::Exists, Sort::Int, Term::Lit(true)),
        _ => over(alloc, Kind::Forall, Sort::Bool, Term::Lit(true)),
    }
}

#[test]
fn each_term_is_alike_itself_alone(rt: HostRuntime) -> Result<(), Fail> {
    for i in 0..15 {
        for j in 0..15 {
            let first = different(rt.alloc(), i)?;
            let second = different(rt.alloc(), j)?;
            assert_eq!(rt; alike(&first, &second), i == j);
        }
    }
    Ok(())
}

#[test]
fn value_terms_are_told(rt: HostRuntime) -> Result<(), Fail> {
    for i in 0..15 {
        assert_eq!(rt; is_value_term(&different(rt.alloc(), i)?), i < 3);
    }
    Ok(())
}
