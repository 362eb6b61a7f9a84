//! Undos of slices, and the way back over one.

ghost use Rattle.std.specs.Prelude.{◌≡◌, ◌<◌, ◌^◌, ℕ, IsTrue, IfOk, Some, length, map, nat_lt, slice_get};
ghost use Rattle.std.specs.List.{list_all};
ghost use Rattle.chc_state.specs.declared.refutation.RefStep.{RefStep};
ghost use Rattle.chc_state.specs.Sorts.{positions};
ghost use Rattle.chc_state.specs.Back.{or_none};
ghost use Rattle.chc_state.specs.PredSets.{is_ascending};
ghost use Rattle.chc_state.specs.Refuting.{number_before, numbered};
ghost use Rattle.pass_slice.specs.Undos.{removed_from, with_one, with_removed};

use chc_sorts::{List, NoMemory, Sort, copy_sorts};
use chc_state::{Def, Defs, PredDecl, State, Steps};
use chc_terms::Term;
use std::alloc::Global;

/// A predicate that went, with the sorts of its positions.
#[derive(Debug, Drop)]
pub struct Removed {
    pub(crate) pred: u32,
    pub(crate) sorts: List<Sort>,
}

/// What the way back over a slice needs: the predicates that went, and the numbers of the clauses that went, ascending.
#[derive(Debug, Drop)]
pub struct Sliced {
    pub(crate) removed: List<Removed>,
    pub(crate) clauses: List<u32>,
}

/// These predicates of the state, with the sorts of their positions.
pub(crate) fn removed_preds(alloc: Global, s: &State, ps: &[u32]) -> Result<List<Removed>, NoMemory>
    ensures { IfOk result (λ l. l ≡ map (removed_from s.now) ps.now) }
{
    let mut removed = List::new(alloc);
    for p in ps {
        let sorts = sorts_at(alloc, s.preds(), *p)?;
        removed.push(Removed { pred: *p, sorts })?;
    }
    Ok(removed)
}

/// The sorts of the predicate's positions, or none where it isn't declared.
fn sorts_at(alloc: Global, preds: &List<PredDecl>, p: u32) -> Result<List<Sort>, NoMemory>
    ensures { IfOk result (λ sorts. sorts ≡ or_none (slice_get (positions preds.now) p)) }
{
    match preds.get(p as usize) {
        Some(decl) => copy_sorts(alloc, &decl.sorts),
        None => Ok(List::new(alloc)),
    }
}

/// The definitions with one more for each of these predicates, which has the value `truth` on all arguments.
pub(crate) fn with_constants(
    alloc: Global,
    truth: bool,
    removed: &[Removed],
    d: Defs,
) -> Result<Defs, NoMemory>
    requires { IsTrue (list_all (λ x. nat_lt x.pred (length d.of)) removed.now) }
    ensures { IfOk result (λ e. e ≡ with_removed truth removed.now d) }
{
    let mut defs = d;
    for x in removed {
        defs = with_constant(alloc, truth, x, defs)?;
    }
    Ok(defs)
}

/// The definitions with one more, for this predicate.
fn with_constant(alloc: Global, truth: bool, x: &Removed, d: Defs) -> Result<Defs, NoMemory>
    requires { x.now.pred < length d.of }
    ensures { IfOk result (λ e. e ≡ with_one truth x.now d) }
{
    let params = copy_sorts(alloc, &x.sorts)?;
    let Defs { mut list, mut of } = d;
    let number = list.len() as u64;
    let body = Term::Lit(truth);
    list.push(Def {
        params,
        result: Sort::Bool,
        body,
    })?;
    of.replace(x.pred as usize, Some(number));
    Ok(Defs { list, of })
}

/// The number that a clause had before the clauses of these numbers, ascending, went. It is found by halving.
pub(crate) fn number_of(gone: &[u32], k: u32) -> u32
    requires ascending { IsTrue (is_ascending gone.now) }
    requires fits { number_before gone.now k < 2 ^ 32 }
    ensures { result ≡ number_before gone.now k }
{
    let mut before = 0;
    let mut end = gone.len();
    while before < end {
        let middle = before + (end - before) / 2;
        if (k as u64) + (middle as u64) < (gone[middle] as u64) {
            end = middle;
        } else {
            before = middle + 1;
        }
    }
    k + before as u32
}

/// The steps with the numbers of their clauses turned back.
pub(crate) fn renumber(gone: &[u32], steps: Steps) -> Steps
    requires ascending { IsTrue (is_ascending gone.now) }
    requires fit { (n : ℕ) (x : RefStep) → slice_get steps n ≡ Some x → number_before gone.now x.clause < 2 ^ 32 }
    ensures { result ≡ map (numbered (number_before gone.now)) steps }
{
    let mut items = steps.into_vec();
    for i in 0..items.len() {
        let clause = number_of(gone, items[i].clause);
        items[i].clause = clause;
    }
    List::from_vec(items)
}
