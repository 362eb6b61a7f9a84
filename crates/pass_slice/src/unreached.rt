//! Predicates that no derivation reaches.

ghost use Rattle.std.specs.Prelude.{◌≡◌, ◌↔◌, ℕ, true, false, None, not, ◌||◌, IsTrue, IfOk, IfErr, MatchOption, filter};
ghost use Rattle.chc_state.specs.Limits.{first_passed};
ghost use Rattle.chc_state.specs.PredSets.{set_of};
ghost use Rattle.chc_state.specs.Refuting.{numbers_where};
ghost use Rattle.chc_state.specs.Passes.{Applies};
ghost use Rattle.pass_slice.specs.Slices.{CanGo, Greatest, sliced, is_unreached, body_meets, head_meets, Slice};
ghost use Rattle.pass_slice.specs.Undos.{Stands};
ghost use Rattle.pass_slice.specs.Tables.{marked, Bounds, Reaches, Strikes, AtPlace};

use crate::sliced::{self, Sliced};
use crate::{choice, sets};
use chc_sorts::{List, NoMemory};
use chc_state::{Clause, State};
use std::alloc::Global;

/// The greatest set of live predicates of which each clause that concludes one has another in its
/// body, ascending; none of them holds of any values. `None` where only the empty set is such. Refuses
/// only for want of memory.
pub(crate) fn find(alloc: Global, s: &State) -> Result<Option<List<u32>>, NoMemory>
    ensures { IfOk result (Greatest Slice.forward s.now) }
{
    let mut table = sets::live_table(alloc, s)?;
    spread(alloc, s, &mut table)?;
    settle(s, &mut table);
    chosen(alloc, s, &table)
}

/// Takes out of the table what derivations reach, in time linear in the clauses: a clause is looked at
/// once none of its body atoms is marked.
fn spread(alloc: Global, s: &State, table: &mut Vec<bool>) -> Result<(), NoMemory>
    requires { Bounds is_unreached s.now table.old.items }
    ensures { Bounds is_unreached s.now table.new.items }
{
    let users = users_of(alloc, s)?;
    let mut waiting = body_lengths(alloc, s)?;
    let mut reached = Vec::new(alloc);
    for k in 0..s.clauses().len() {
        look(s, k, table, &mut reached)?;
    }
    for i in 0..table.len() {
        let Some(p) = reached.get(i) else { break };
        let p = *p as usize;
        if p < users.len() {
            release(s, &users[p], &mut waiting, table, &mut reached)?;
        }
    }
    Ok(())
}

/// Counts for each of these clauses one marked body atom less, and looks at those that have none left.
fn release(
    s: &State,
    users: &[usize],
    waiting: &mut Vec<usize>,
    table: &mut Vec<bool>,
    reached: &mut Vec<u32>,
) -> Result<(), NoMemory>
    requires { Bounds is_unreached s.now table.old.items }
    ensures { Bounds is_unreached s.now table.new.items }
{
    for k in users {
        if is_last(waiting, *k) {
            look(s, *k, table, reached)?;
        }
    }
    Ok(())
}

/// Counts one body atom of clause `k` less; whether that was the last.
fn is_last(waiting: &mut Vec<usize>, k: usize) -> bool {
    if k < waiting.len() && waiting[k] > 0 {
        waiting[k] -= 1;
        waiting[k] == 0
    } else {
        false
    }
}

/// Takes what clause `k` reaches out of the table, and notes it.
fn look(s: &State, k: usize, table: &mut Vec<bool>, reached: &mut Vec<u32>) -> Result<(), NoMemory>
    requires { Bounds is_unreached s.now table.old.items }
    ensures { Bounds is_unreached s.now table.new.items }
{
    if let Some(p) = candidate(s, k, table) {
        table[p as usize] = false;
        reached.push(p)?;
    }
    Ok(())
}

/// Takes out of the table what is reached still, clause by clause, until there is nothing left.
fn settle(s: &State, table: &mut Vec<bool>)
    requires { Bounds is_unreached s.now table.old.items }
    ensures bounds { Bounds is_unreached s.now table.new.items }
    ensures settled { IsTrue (is_unreached s.now.clauses (marked table.new.items)) }
{
    while let Some(p) = breaker(s, table) {
        table[p as usize] = false;
    }
}

/// Some predicate that some clause reaches, if there is one.
fn breaker(s: &State, table: &[bool]) -> Option<u32>
    requires { Bounds is_unreached s.now table.now }
    ensures { MatchOption result (IsTrue (is_unreached s.now.clauses (marked table.now))) (Strikes is_unreached s.now table.now) }
{
    for k in 0..s.clauses().len() {
        if let Some(p) = candidate(s, k, table) {
            return Some(p);
        }
    }
    None
}

/// The predicate that clause `k` reaches, if it does.
fn candidate(s: &State, k: usize, table: &[bool]) -> Option<u32>
    requires { Bounds is_unreached s.now table.now }
    ensures { MatchOption result (AtPlace (λ c. not (head_meets (marked table.now) c) || body_meets (marked table.now) c) s.now.clauses k) (Strikes is_unreached s.now table.now) }
{
    match s.clauses().get(k) {
        Some(c) => reached_by(table, c),
        None => None,
    }
}

/// The predicate that the clause reaches: its head's, where that is marked and no body atom is.
fn reached_by(table: &[bool], c: &Clause) -> Option<u32>
    ensures { MatchOption result (IsTrue (not (head_meets (marked table.now) c.now) || body_meets (marked table.now) c.now)) (Reaches (marked table.now) c.now) }
{
    match &c.head {
        Some(a) => {
            if !sets::is_marked(table, a.pred) || sets::body_is_marked(table, c) {
                None
            } else {
                Some(a.pred)
            }
        }
        None => None,
    }
}

/// What is marked, if anything is.
fn chosen(alloc: Global, s: &State, table: &[bool]) -> Result<Option<List<u32>>, NoMemory>
    requires bounds { Bounds is_unreached s.now table.now }
    requires settled { IsTrue (is_unreached s.now.clauses (marked table.now)) }
    ensures { IfOk result (Greatest Slice.forward s.now) }
{
    // A state has fewer than 2^32 predicates, and is within the limits.
    let (_preds, _clauses) = (s.preds(), s.clauses());
    let found = sets::some_numbers(alloc, table)?;
    Ok(found)
}

/// For each predicate the clauses that have it in their body, once for each such atom.
fn users_of(alloc: Global, s: &State) -> Result<Vec<Vec<usize>>, NoMemory> {
    let mut users = sets::empty_lists(alloc, s.preds().len())?;
    for (k, c) in s.clauses().as_slice().iter().enumerate() {
        for a in c.body.as_slice() {
            sets::note(&mut users, a.pred, k)?;
        }
    }
    Ok(users)
}

/// How many body atoms each clause has.
fn body_lengths(alloc: Global, s: &State) -> Result<Vec<usize>, NoMemory> {
    let mut lengths = Vec::new(alloc);
    for c in s.clauses().as_slice() {
        lengths.push(c.body.len())?;
    }
    Ok(lengths)
}

/// The state without these predicates and without the clauses that have one of them in their body, and its undo. Where memory is
/// refused, the state comes back.
pub(crate) fn apply(
    alloc: Global,
    s: State,
    ps: &List<u32>,
) -> Result<(State, Sliced), (State, NoMemory)>
    requires { CanGo Slice.forward s ps.now }
    ensures applied { IfOk result (λ done. Applies (sliced Slice.forward) (λ _. true) (λ _. false) s ps.now done.0) }
    ensures stands { IfOk result (λ done. Stands Slice.forward done.1 s ps.now) }
    ensures unchanged { IfErr result (λ refused. refused.0 ≡ s) }
{
    let prepared = match prepare(alloc, &s, ps) {
        Ok(prepared) => prepared,
        Err(refused) => return Err((s, refused)),
    };
    let (sig, preds, clauses) = s.into_parts();
    let clauses = without_users(&prepared.table, clauses);
    let left = State::of_parts(sig, sets::retire(&prepared.table, preds), clauses);
    Ok((left, prepared.undo))
}

/// A table of predicates, and the undo of removing them.
#[derive(Drop)]
struct Prepared {
    table: Vec<bool>,
    undo: Sliced,
}

/// The table of these predicates, and the undo of removing them.
fn prepare(alloc: Global, s: &State, ps: &List<u32>) -> Result<Prepared, NoMemory>
    requires { CanGo Slice.forward s.now ps.now }
    ensures table { IfOk result (λ p. (q : ℕ) → marked p.table.items q ≡ set_of ps.now q) }
    ensures stands { IfOk result (λ p. Stands Slice.forward p.undo s.now ps.now) }
{
    let table = sets::table_for(alloc, s, ps)?;
    let clauses = users(alloc, s, &table)?;
    let removed = sliced::removed_preds(alloc, s, ps.as_slice())?;
    s.kept();
    Ok(Prepared {
        table,
        undo: Sliced { removed, clauses },
    })
}

/// The numbers of the clauses that have a marked predicate in their body.
fn users(alloc: Global, s: &State, table: &[bool]) -> Result<List<u32>, NoMemory>
    ensures { IfOk result (λ ks. ks ≡ numbers_where (body_meets (marked table.now)) 0 s.now.clauses) }
{
    let mut numbers = List::new(alloc);
    let clauses = s.clauses().as_slice();
    for k in 0..clauses.len() {
        sets::push_if(
            sets::body_is_marked(table, &clauses[k]),
            &mut numbers,
            k as u32,
        )?;
    }
    Ok(numbers)
}

/// The clauses that have no marked predicate in their body, in order.
fn without_users(table: &[bool], clauses: List<Clause>) -> List<Clause>
    ensures { result ≡ filter (λ c. not (body_meets (marked table.now) c)) clauses }
{
    let mut kept = clauses.into_vec();
    kept.retain(|c| !sets::body_is_marked(table, c));
    List::from_vec(kept)
}

/// Whether the step on these numbers may be taken: there are some, each above the one before it, all of live
/// predicates, and each clause that concludes one of them has one of them in its body. Any numbers may be
/// asked of, in time linear in the state and the numbers. Refuses only for want of memory.
pub(crate) fn legal(alloc: Global, s: &State, ps: &List<u32>) -> Result<bool, NoMemory>
    ensures { IfOk result (λ b. IsTrue b ↔ CanGo Slice.forward s.now ps.now) }
{
    if !choice::can_go(s, ps) {
        return Ok(false);
    }
    let table = sets::table_for(alloc, s, ps)?;
    Ok(is_met(&table, s))
}

/// Whether every clause meets the condition on the marked predicates.
fn is_met(table: &[bool], s: &State) -> bool
    ensures meets { result ≡ is_unreached s.now.clauses (marked table.now) }
    ensures within { first_passed s.now.preds s.now.clauses ≡ None }
{
    s.clauses().as_slice().iter().all(|c| !sets::head_is_marked(table, c)
        || sets::body_is_marked(table, c))
}
