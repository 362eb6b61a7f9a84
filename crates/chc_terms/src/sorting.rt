//! The sorts of terms.

ghost use Rattle.std.specs.Prelude.{◌≡◌, ◌++◌, Some, OnOk, IfOk, slice_get, take};
ghost use Rattle.chc_terms.specs.declared.context.SortErr.TheVariants.{Unbound as unbound};
ghost use Rattle.chc_terms.specs.Sorted.{result_at, sort_of, sorts_of, truth_at};
ghost use Rattle.chc_terms.specs.Judged.{Answers, Enters, JudgesExactly, Leads, declared_in, judged, judged_all, judged_atom, judged_call, judged_operation, or_refused};
ghost use Rattle.chc_terms.specs.Demands.{demanded_sort};

use crate::context::{Context, SortErr};
use crate::declared::are_declared;
use crate::demand::{Demand, copy_given, demand_of, given, sort_on, takes};
use crate::fun_sort::FunSort;
use crate::term::Term;
use chc_sorts::{List, NoMemory, Op, Sig, Sort, same_sort, same_sorts};
use std::alloc::Global;

/// The sort of a variable: those of number below the outer ones' count are these, and the others are bound in the term.
fn variable_sort(
    alloc: Global,
    outer: &List<Sort>,
    bound: &List<Sort>,
    i: u32,
) -> Result<Sort, SortErr>
    ensures { Answers result (or_refused unbound (slice_get (outer.now ++ bound.now) i)) }
{
    let i = i as usize;
    let found = if i < outer.len() {
        outer.get(i)
    } else {
        bound.get(i - outer.len())
    };
    match found {
        Some(sort) => Ok(sort.copy(alloc)?),
        None => Err(SortErr::Unbound),
    }
}

/// What the operator demands, where that many arguments are what it takes.
fn operator_demand(alloc: Global, sig: &Sig, op: &Op, count: usize) -> Result<Demand, SortErr>
    ensures { Leads result demanded_sort (judged_operation sig.now op.now count) }
{
    let demand = demand_of(alloc, sig, op)?;
    if takes(&demand, count) {
        Ok(demand)
    } else {
        Err(SortErr::WrongCount)
    }
}

/// The sorts of the predicate's positions, where they are that many.
fn position_sorts<'a>(
    preds: &'a List<List<Sort>>,
    p: u32,
    count: usize,
) -> Result<&'a List<Sort>, SortErr>
    ensures { Leads result (λ params sorts. truth_at sorts (Some params.now)) (judged_atom (slice_get preds.now p) count) }
{
    let Some(params) = preds.get(p as usize) else {
        return Err(SortErr::Unbound);
    };
    if count == params.len() {
        Ok(params)
    } else {
        Err(SortErr::WrongCount)
    }
}

/// The sorts of the definition, where it has that many parameters.
fn definition_sorts<'a>(
    defs: &'a List<FunSort>,
    k: u64,
    count: usize,
) -> Result<&'a FunSort, SortErr>
    ensures { Leads result (λ f sorts. result_at sorts (Some f.now)) (judged_call (slice_get defs.now k) count) }
{
    let Some(fun) = defs.get(k as usize) else {
        return Err(SortErr::Unbound);
    };
    if count == fun.params.len() {
        Ok(fun)
    } else {
        Err(SortErr::WrongCount)
    }
}

/// Adds the sorts of a quantifier's variables to those that are bound. Errors: `Unbound` where a datatype isn't
/// there; `WrongCount` where there are none; `NoMemory`.
fn enter(
    alloc: Global,
    sig: &Sig,
    bound: &mut List<Sort>,
    sorts: &List<Sort>,
) -> Result<(), SortErr>
    ensures { Enters sig.now sorts.now bound.old result bound.new }
{
    if !are_declared(sig, sorts) {
        return Err(SortErr::Unbound);
    }
    if sorts.len() == 0 {
        return Err(SortErr::WrongCount);
    }
    append(alloc, bound, sorts)?;
    Ok(())
}

/// Adds the sorts at the end.
fn append(alloc: Global, bound: &mut List<Sort>, sorts: &List<Sort>) -> Result<(), NoMemory>
    ensures { OnOk result (bound.new ≡ bound.old ++ sorts.now) }
{
    for sort in sorts.as_slice() {
        bound.push(sort.copy(alloc)?)?;
    }
    Ok(())
}

/// Takes sorts off the end until `count` are left.
fn leave(bound: &mut List<Sort>, count: usize)
    ensures { bound.new ≡ take count bound.old }
{
    while bound.len() > count {
        let _left = bound.pop();
    }
}

/// The sort of the term under the context's variables and, behind them, the bound ones.
#[cycle(judge)]
#[tactic(auto, using(crate::proofs::JudgedLaws::judges))]
fn judge(alloc: Global, cx: &Context<'_>, bound: &mut List<Sort>, t: &Term) -> Result<Sort, SortErr>
    ensures value { Answers result (judged (declared_in cx.now) t.now (cx.now.vars.now ++ bound.old)) }
    ensures kept { OnOk result (bound.new ≡ bound.old) }
{
    match t {
        Term::Var(i) => variable_sort(alloc, cx.vars, bound, *i),
        Term::Num(_) => Ok(Sort::Int),
        Term::Lit(_) => Ok(Sort::Bool),
        Term::App(op, terms) => {
            let demand = operator_demand(alloc, cx.sig, op, terms.len())?;
            let sorts = judge_all(alloc, cx, bound, terms)?;
            sort_on(alloc, demand, sorts.as_slice())
        }
        Term::Pred(p, terms) => {
            let params = position_sorts(cx.preds, *p, terms.len())?;
            let sorts = judge_all(alloc, cx, bound, terms)?;
            given(same_sorts(sorts.as_slice(), params.as_slice()), Sort::Bool)
        }
        Term::Quant(_, sorts, body) => {
            let outer = bound.len();
            enter(alloc, cx.sig, bound, sorts)?;
            let sort = judge(alloc, cx, bound, body.get())?;
            leave(bound, outer);
            given(same_sort(&sort, &Sort::Bool), Sort::Bool)
        }
        Term::Call(k, terms) => {
            let fun = definition_sorts(cx.defs, *k, terms.len())?;
            let sorts = judge_all(alloc, cx, bound, terms)?;
            let fits = same_sorts(sorts.as_slice(), fun.params.as_slice());
            copy_given(alloc, fits, &fun.result)
        }
    }
}

/// The sorts of the terms, from left to right.
#[cycle(judge)]
#[tactic(auto, using(crate::proofs::JudgedLaws::judges))]
fn judge_all(
    alloc: Global,
    cx: &Context<'_>,
    bound: &mut List<Sort>,
    terms: &List<Term>,
) -> Result<List<Sort>, SortErr>
    ensures value { Answers result (judged_all (declared_in cx.now) terms.now (cx.now.vars.now ++ bound.old)) }
    ensures kept { OnOk result (bound.new ≡ bound.old) }
{
    let mut sorts = List::new(alloc);
    for t in terms.as_slice() {
        sorts.push(judge(alloc, cx, bound, t)?)?;
    }
    Ok(sorts)
}

/// The sort of the term, where it is well sorted. Errors, at each node in this order, of which the first found
/// counts: `Unbound` at a number of a variable, predicate, definition, datatype, constructor or field that isn't
/// there, those in the sorts of a constant array and of a quantifier with them; `WrongCount` where the node hasn't
/// its operator's or declaration's number of arguments, or a quantifier binds nothing; the arguments' errors from
/// left to right; `WrongSort`. `NoMemory` may come instead of any answer. It recurses to the depth of the term,
/// which is at most 900 where terms are read.
pub fn sort_of(alloc: Global, t: &Term, cx: &Context<'_>) -> Result<Sort, SortErr>
    ensures { Answers result (judged (declared_in cx.now) t.now cx.now.vars.now) }
{
    let mut bound = List::new(alloc);
    judge(alloc, cx, &mut bound, t)
}

/// The sort of the term, or `None` where it isn't well sorted.
#[tactic(auto, using(crate::proofs::JudgedExactly::answered))]
pub fn sort_if_any(alloc: Global, t: &Term, cx: &Context<'_>) -> Result<Option<Sort>, NoMemory>
    ensures { IfOk result (λ sort. sort ≡ sort_of (declared_in cx.now) t.now cx.now.vars.now) }
{
    match sort_of(alloc, t, cx) {
        Ok(sort) => Ok(Some(sort)),
        Err(SortErr::NoMemory) => Err(NoMemory),
        Err(SortErr::Unbound | SortErr::WrongCount | SortErr::WrongSort) => Ok(None),
    }
}

/// The sorts of the terms in order, where all are well sorted. Errors: those of `sort_of`, the first from left to right.
pub fn sorts_of(alloc: Global, terms: &List<Term>, cx: &Context<'_>) -> Result<List<Sort>, SortErr>
    ensures { Answers result (judged_all (declared_in cx.now) terms.now cx.now.vars.now) }
{
    let mut bound = List::new(alloc);
    judge_all(alloc, cx, &mut bound, terms)
}

/// The sorts of the terms in order, or `None` where one isn't well sorted.
#[tactic(auto, using(crate::proofs::JudgedExactly::answered))]
pub fn sorts_if_any(
    alloc: Global,
    terms: &List<Term>,
    cx: &Context<'_>,
) -> Result<Option<List<Sort>>, NoMemory>
    ensures { IfOk result (λ sorts. sorts ≡ sorts_of (declared_in cx.now) terms.now cx.now.vars.now) }
{
    match sorts_of(alloc, terms, cx) {
        Ok(sorts) => Ok(Some(sorts)),
        Err(SortErr::NoMemory) => Err(NoMemory),
        Err(SortErr::Unbound | SortErr::WrongCount | SortErr::WrongSort) => Ok(None),
    }
}

/// The law that `sort_of` gives a sort exactly where the term is well sorted, and that sort.
pub fn judged_exactly()
    ensures { JudgesExactly }
{}
