//! Terms that clauses may hold: plain ones, with sorts and numbers that fit.

ghost use Rattle.std.specs.Prelude.{◌≡◌, map};
ghost use Rattle.std.specs.List.{list_all};
ghost use Rattle.chc_sorts.specs.declared.sort.Sort.TheVariants.{Array as sort_array};
ghost use Rattle.chc_sorts.specs.Sorts.{sort_fits};
ghost use Rattle.chc_values.specs.Ranges.{is_int_in_range};
ghost use Rattle.chc_terms.specs.Numbers.{numbers_fit};
ghost use Rattle.chc_terms.specs.Sorted.{is_plain, op_fits, sorts_fit};

use crate::declared::is_declared;
use crate::term::{Term, Terms};
use chc_sorts::{List, Op, Sig, Sort, sort_depth};

/// The depth that a sort has at most; Int has depth 1.
const DEEPEST_SORT: u64 = 16;

/// Whether the term has no quantifier, no predicate and no call in it.
#[cycle(plain)]
#[tactic(auto, using(crate::proofs::SortLaws::plains))]
pub fn is_plain(t: &Term) -> bool
    ensures { result ≡ is_plain t.now }
{
    match t {
        Term::Var(_) | Term::Num(_) | Term::Lit(_) => true,
        Term::App(_, ts) => are_plain(ts),
        Term::Pred(_, _) | Term::Quant(_, _, _) | Term::Call(_, _) => false,
    }
}

/// Whether each of the terms is plain.
#[cycle(plain)]
#[tactic(auto, using(crate::proofs::SortLaws::plains))]
fn are_plain(ts: &Terms) -> bool
    ensures { result ≡ list_all (λ b. b) (map is_plain ts.now) }
{
    for t in ts.as_slice() {
        if !is_plain(t) {
            return false;
        }
    }
    true
}

/// Whether the sort names datatypes of the signature alone, and is at most 16 deep.
pub fn sort_fits(sig: &Sig, sort: &Sort) -> bool
    ensures { result ≡ sort_fits sig.now sort.now }
{
    is_declared(sig, sort) && sort_depth(sort) <= DEEPEST_SORT
}

/// Whether each of the sorts fits.
pub fn are_fitting(sig: &Sig, sorts: &List<Sort>) -> bool
    ensures { result ≡ list_all (sort_fits sig.now) sorts.now }
{
    sorts.as_slice().iter().all(|sort| sort_fits(sig, sort))
}

/// Whether the sort of arrays of these elements fits.
#[tactic(auto, using(crate::proofs::NumberLaws::arrays))]
fn array_fits(sig: &Sig, element: &Sort) -> bool
    ensures { result ≡ sort_fits sig.now (sort_array element.now) }
{
    is_declared(sig, element) && sort_depth(element) < DEEPEST_SORT
}

/// Whether the sort that the operator gives by itself fits; only a constant array's does so.
fn op_fits(sig: &Sig, op: &Op) -> bool
    ensures { result ≡ op_fits sig.now op.now }
{
    match op {
        Op::Const(element) => array_fits(sig, element),
        _ => true,
    }
}

/// Whether every sort that the term writes out names datatypes of the signature alone and is at most 16 deep: those of
/// quantifiers, and those of constant arrays.
#[cycle(sorts)]
#[tactic(auto, using(crate::proofs::SortLaws::fits))]
pub fn sorts_fit(t: &Term, sig: &Sig) -> bool
    ensures { result ≡ sorts_fit sig.now t.now }
{
    match t {
        Term::Var(_) | Term::Num(_) | Term::Lit(_) => true,
        Term::App(op, ts) => op_fits(sig, op) && all_sorts_fit(ts, sig),
        Term::Pred(_, ts) => all_sorts_fit(ts, sig),
        Term::Quant(_, sorts, body) => are_fitting(sig, sorts) && sorts_fit(body.get(), sig),
        Term::Call(_, ts) => all_sorts_fit(ts, sig),
    }
}

/// Whether every sort that the terms write out fits.
#[cycle(sorts)]
#[tactic(auto, using(crate::proofs::SortLaws::fits))]
fn all_sorts_fit(ts: &Terms, sig: &Sig) -> bool
    ensures { result ≡ list_all (λ b. b) (map (sorts_fit sig.now) ts.now) }
{
    for t in ts.as_slice() {
        if !sorts_fit(t, sig) {
            return false;
        }
    }
    true
}

/// Whether the number lies in -M..M, where M is 2^127 - 1.
pub fn number_fits(n: i128) -> bool
    ensures { result ≡ is_int_in_range n }
{
    n != i128::MIN
}

/// Whether every number in the term lies in -M..M, where M is 2^127 - 1.
#[cycle(numbers)]
#[tactic(auto, using(crate::proofs::NumberLaws::numbers))]
pub fn numbers_fit(t: &Term) -> bool
    ensures { result ≡ numbers_fit t.now }
{
    match t {
        Term::Var(_) | Term::Lit(_) => true,
        Term::Num(n) => number_fits(*n),
        Term::App(_, ts) => all_numbers_fit(ts),
        Term::Pred(_, ts) => all_numbers_fit(ts),
        Term::Quant(_, _, body) => numbers_fit(body.get()),
        Term::Call(_, ts) => all_numbers_fit(ts),
    }
}

/// Whether every number in the terms lies in -M..M.
#[cycle(numbers)]
#[tactic(auto, using(crate::proofs::NumberLaws::numbers))]
fn all_numbers_fit(ts: &Terms) -> bool
    ensures { result ≡ list_all (λ b. b) (map numbers_fit ts.now) }
{
    for t in ts.as_slice() {
        if !numbers_fit(t) {
            return false;
        }
    }
    true
}
