//! Terms under more variables.

ghost use Rattle.std.specs.Prelude.{◌≡◌, ◌^◌, ◌<◌, IfOk, IsTrue};
ghost use Rattle.chc_terms.specs.ShiftLaws.{KeepsMeaning};
ghost use Rattle.chc_terms.specs.Shifted.{moved as moved_to, shifted, shifted_all, can_shift, can_shift_all};

use crate::term::{Term, Terms};
use chc_sorts::{Boxed, List, NoMemory, copy_sorts};
use std::alloc::Global;

/// The term with `up` added to every variable's number from `from` on, which must leave each at most 4,294,967,295.
///
/// A term that stands under n variables, of which `from` are before the new ones, stands then under n + `up`, and
/// has the same values there, whatever the new variables' values are: the variables that its quantifiers bind are
/// numbered anew as well. Its sort, size and depth stay.
pub fn shift(alloc: Global, t: &Term, from: u32, up: u32) -> Result<Term, NoMemory>
    requires { IsTrue (can_shift t.now from up) }
    ensures shifts { IfOk result (λ s. s ≡ shifted t.now from up) }
    ensures keeps { IfOk result (λ s. KeepsMeaning t.now s from up) }
{
    shift_term(alloc, t, from, up)
}

/// The same, as one turn of the recursion over the term.
#[cycle(shift)]
#[tactic(auto, using(crate::proofs::ShiftedLaws::equations))]
fn shift_term(alloc: Global, t: &Term, from: u32, up: u32) -> Result<Term, NoMemory>
    requires { IsTrue (can_shift t.now from up) }
    ensures { IfOk result (λ s. s ≡ shifted t.now from up) }
{
    match t {
        Term::Var(i) => Ok(Term::Var(moved(*i, from, up))),
        Term::Num(n) => Ok(Term::Num(*n)),
        Term::Lit(b) => Ok(Term::Lit(*b)),
        Term::App(op, ts) => {
            let op = op.copy(alloc)?;
            Ok(Term::App(op, shift_all(alloc, ts, from, up)?))
        }
        Term::Pred(p, ts) => Ok(Term::Pred(*p, shift_all(alloc, ts, from, up)?)),
        Term::Quant(kind, sorts, body) => {
            let sorts = copy_sorts(alloc, sorts)?;
            let body = shift_term(alloc, body.get(), from, up)?;
            Ok(Term::Quant(*kind, sorts, Boxed::new(alloc, body)?))
        }
        Term::Call(k, ts) => Ok(Term::Call(*k, shift_all(alloc, ts, from, up)?)),
    }
}

/// The same of each of the terms, in order.
#[cycle(shift)]
#[tactic(auto, using(crate::proofs::ShiftedLaws::equations))]
pub fn shift_all(alloc: Global, ts: &Terms, from: u32, up: u32) -> Result<Terms, NoMemory>
    requires { IsTrue (can_shift_all ts.now from up) }
    ensures { IfOk result (λ l. l ≡ shifted_all ts.now from up) }
{
    let mut made = List::new(alloc);
    for t in ts.as_slice() {
        made.push(shift_term(alloc, t, from, up)?)?;
    }
    Ok(made)
}

/// The number of a variable once `up` others stand before the number `from`.
fn moved(i: u32, from: u32, up: u32) -> u32
    requires { moved_to from up i < 2 ^ 32 }
    ensures { result ≡ moved_to from up i }
{
    if i < from { i } else { i + up }
}
