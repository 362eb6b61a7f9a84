//! Predicates that no query needs.

ghost use Rattle.std.specs.Prelude.{◌≡◌, ◌↔◌, ℕ, true, false, None, true, false, not, ◌||◌, IsTrue, IfOk, IfErr, MatchOption, filter, nat_eq};
ghost use Rattle.std.specs.List.{list_all, list_any};
ghost use Rattle.chc_state.specs.declared.clause.Atom.{Atom};
ghost use Rattle.chc_state.specs.Limits.{first_passed};
ghost use Rattle.chc_state.specs.PredSets.{set_of};
ghost use Rattle.chc_state.specs.Refuting.{numbers_where};
ghost use Rattle.chc_state.specs.Passes.{Applies};
ghost use Rattle.pass_slice.specs.Slices.{CanGo, Greatest, sliced, is_unneeded, body_meets, head_meets, Slice};
ghost use Rattle.pass_slice.specs.Undos.{Stands};
ghost use Rattle.pass_slice.specs.Tables.{marked, Bounds, Needs, Strikes, AtPlace};

use crate::sliced::{self, Sliced};
use crate::{choice, sets};
use chc_sorts::{List, NoMemory};
use chc_state::{Atom, Clause, State};
use std::alloc::Global;

/// The greatest set of live predicates that no query, and no clause that concludes a predicate outside
/// the set, has in its body, ascending; false is derived without them. `None` where only the empty set
/// is such. Refuses only for want of memory.
pub(crate) fn find(alloc: Global, s: &State) -> Result<Option<List<u32>>, NoMemory>
    ensures { IfOk result (Greatest Slice.backward s.now) }
{
    let mut table = sets::live_table(alloc, s)?;
    spread(alloc, s, &mut table)?;
    settle(s, &mut table);
    chosen(alloc, s, &table)
}

/// Takes out of the table what queries need, in time linear in the clauses: a clause is looked at again
/// once the predicate that it concludes is needed.
fn spread(alloc: Global, s: &State, table: &mut Vec<bool>) -> Result<(), NoMemory>
    requires { Bounds is_unneeded s.now table.old.items }
    ensures { Bounds is_unneeded s.now table.new.items }
{
    let concluders = concluders_of(alloc, s)?;
    let mut needed = Vec::new(alloc);
    for k in 0..s.clauses().len() {
        look(s, k, table, &mut needed)?;
    }
    for i in 0..table.len() {
        let Some(p) = needed.get(i) else { break };
        let p = *p as usize;
        if p < concluders.len() {
            look_at_all(s, &concluders[p], table, &mut needed)?;
        }
    }
    Ok(())
}

/// Looks at each of these clauses.
fn look_at_all(
    s: &State,
    numbers: &[usize],
    table: &mut Vec<bool>,
    needed: &mut Vec<u32>,
) -> Result<(), NoMemory>
    requires { Bounds is_unneeded s.now table.old.items }
    ensures { Bounds is_unneeded s.now table.new.items }
{
    for k in numbers {
        look(s, *k, table, needed)?;
    }
    Ok(())
}

/// Takes what clause `k` needs out of the table, and notes it.
fn look(s: &State, k: usize, table: &mut Vec<bool>, needed: &mut Vec<u32>) -> Result<(), NoMemory>
    requires { Bounds is_unneeded s.now table.old.items }
    ensures { Bounds is_unneeded s.now table.new.items }
{
    while let Some(p) = candidate(s, k, table) {
        table[p as usize] = false;
        needed.push(p)?;
    }
    Ok(())
}

/// Takes out of the table what is needed still, clause by clause, until there is nothing left.
fn settle(s: &State, table: &mut Vec<bool>)
    requires { Bounds is_unneeded s.now table.old.items }
    ensures bounds { Bounds is_unneeded s.now table.new.items }
    ensures settled { IsTrue (is_unneeded s.now.clauses (marked table.new.items)) }
{
    while let Some(p) = breaker(s, table) {
        table[p as usize] = false;
    }
}

/// Some predicate that some clause needs, if there is one.
fn breaker(s: &State, table: &[bool]) -> Option<u32>
    requires { Bounds is_unneeded s.now table.now }
    ensures { MatchOption result (IsTrue (is_unneeded s.now.clauses (marked table.now))) (Strikes is_unneeded s.now table.now) }
{
    for k in 0..s.clauses().len() {
        if let Some(p) = candidate(s, k, table) {
            return Some(p);
        }
    }
    None
}

/// Some predicate that clause `k` needs, if there is one.
fn candidate(s: &State, k: usize, table: &[bool]) -> Option<u32>
    requires { Bounds is_unneeded s.now table.now }
    ensures { MatchOption result (AtPlace (λ c. head_meets (marked table.now) c || not (body_meets (marked table.now) c)) s.now.clauses k) (Strikes is_unneeded s.now table.now) }
{
    match s.clauses().get(k) {
        Some(c) => needed_by(table, c),
        None => None,
    }
}

/// A predicate that the clause needs: a marked one of its body, where its head's isn't marked.
fn needed_by(table: &[bool], c: &Clause) -> Option<u32>
    ensures { MatchOption result (IsTrue (head_meets (marked table.now) c.now || not (body_meets (marked table.now) c.now))) (Needs (marked table.now) c.now) }
{
    if sets::head_is_marked(table, c) {
        None
    } else {
        first_marked(table, c.body.as_slice())
    }
}

/// The first marked predicate of these atoms.
fn first_marked(table: &[bool], atoms: &[Atom]) -> Option<u32>
    ensures { MatchOption result (list_any (λ (a : Atom). marked table.now a.pred) atoms.now ≡ false)
        (λ p. (marked table.now p ≡ true) × (list_any (λ (a : Atom). nat_eq a.pred p) atoms.now ≡ true)) }
{
    for a in atoms {
        if sets::is_marked(table, a.pred) {
            return Some(a.pred);
        }
    }
    None
}

/// What is marked, if anything is.
fn chosen(alloc: Global, s: &State, table: &[bool]) -> Result<Option<List<u32>>, NoMemory>
    requires bounds { Bounds is_unneeded s.now table.now }
    requires settled { IsTrue (is_unneeded s.now.clauses (marked table.now)) }
    ensures { IfOk result (Greatest Slice.backward s.now) }
{
    // A state has fewer than 2^32 predicates, and is within the limits.
    let (_preds, _clauses) = (s.preds(), s.clauses());
    let found = sets::some_numbers(alloc, table)?;
    Ok(found)
}

/// For each predicate the clauses that conclude it.
fn concluders_of(alloc: Global, s: &State) -> Result<Vec<Vec<usize>>, NoMemory> {
    let mut concluders = sets::empty_lists(alloc, s.preds().len())?;
    for (k, c) in s.clauses().as_slice().iter().enumerate() {
        if let Some(a) = &c.head {
            sets::note(&mut concluders, a.pred, k)?;
        }
    }
    Ok(concluders)
}

/// The state without these predicates and without the clauses that conclude one of them, and its undo. Where memory is
/// refused, the state comes back.
pub(crate) fn apply(
    alloc: Global,
    s: State,
    ps: &List<u32>,
) -> Result<(State, Sliced), (State, NoMemory)>
    requires { CanGo Slice.backward s ps.now }
    ensures applied { IfOk result (λ done. Applies (sliced Slice.backward) (λ _. true) (λ _. false) s ps.now done.0) }
    ensures stands { IfOk result (λ done. Stands Slice.backward done.1 s ps.now) }
    ensures unchanged { IfErr result (λ refused. refused.0 ≡ s) }
{
    let prepared = match prepare(alloc, &s, ps) {
        Ok(prepared) => prepared,
        Err(refused) => return Err((s, refused)),
    };
    let (sig, preds, clauses) = s.into_parts();
    let clauses = without_concluders(&prepared.table, clauses);
    let left = State::of_parts(sig, sets::retire(&prepared.table, preds), clauses);
    Ok((left, prepared.undo))
}

/// A table of predicates, and the undo of removing them.
#[derive(Drop)]
struct Prepared {
    table: Vec<bool>,
    undo: Sliced,
}

/// The table of these predicates, and the undo of removing them.
fn prepare(alloc: Global, s: &State, ps: &List<u32>) -> Result<Prepared, NoMemory>
    requires { CanGo Slice.backward s.now ps.now }
    ensures table { IfOk result (λ p. (q : ℕ) → marked p.table.items q ≡ set_of ps.now q) }
    ensures stands { IfOk result (λ p. Stands Slice.backward p.undo s.now ps.now) }
{
    let table = sets::table_for(alloc, s, ps)?;
    let clauses = concluders(alloc, s, &table)?;
    let removed = sliced::removed_preds(alloc, s, ps.as_slice())?;
    s.kept();
    Ok(Prepared {
        table,
        undo: Sliced { removed, clauses },
    })
}

/// The numbers of the clauses that conclude a marked predicate.
fn concluders(alloc: Global, s: &State, table: &[bool]) -> Result<List<u32>, NoMemory>
    ensures { IfOk result (λ ks. ks ≡ numbers_where (head_meets (marked table.now)) 0 s.now.clauses) }
{
    let mut numbers = List::new(alloc);
    let clauses = s.clauses().as_slice();
    for k in 0..clauses.len() {
        sets::push_if(
            sets::head_is_marked(table, &clauses[k]),
            &mut numbers,
            k as u32,
        )?;
    }
    Ok(numbers)
}

/// The clauses that conclude no marked predicate, in order.
fn without_concluders(table: &[bool], clauses: List<Clause>) -> List<Clause>
    ensures { result ≡ filter (λ c. not (head_meets (marked table.now) c)) clauses }
{
    let mut kept = clauses.into_vec();
    kept.retain(|c| !sets::head_is_marked(table, c));
    List::from_vec(kept)
}

/// Whether the step on these numbers may be taken: there are some, each above the one before it, all of live
/// predicates, and no query, and no clause that concludes another predicate, has one of them in its body. Any
/// numbers may be asked of, in time linear in the state and the numbers. Refuses only for want of memory.
pub(crate) fn legal(alloc: Global, s: &State, ps: &List<u32>) -> Result<bool, NoMemory>
    ensures { IfOk result (λ b. IsTrue b ↔ CanGo Slice.backward s.now ps.now) }
{
    if !choice::can_go(s, ps) {
        return Ok(false);
    }
    let table = sets::table_for(alloc, s, ps)?;
    Ok(is_met(&table, s))
}

/// Whether every clause meets the condition on the marked predicates.
fn is_met(table: &[bool], s: &State) -> bool
    ensures meets { result ≡ is_unneeded s.now.clauses (marked table.now) }
    ensures within { first_passed s.now.preds s.now.clauses ≡ None }
{
    s.clauses().as_slice().iter().all(|c| sets::head_is_marked(table, c)
        || !sets::body_is_marked(table, c))
}
