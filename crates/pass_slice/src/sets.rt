//! Sets of predicates as tables with a place for each number, and what both kinds of slices do with them.

ghost use Rattle.std.specs.Prelude.{◌≡◌, ℕ, ◌+◌, ◌^◌, ◌<◌, IsTrue, IfOk, length, map, nat_lt, cond, [], ◌∷◌, ◌++◌, ◌&&◌, not, ◌≢◌, MatchOption};
ghost use Rattle.std.specs.List.{list_all};
ghost use Rattle.chc_state.specs.declared.clause.PredDecl.{PredDecl};
ghost use Rattle.chc_state.specs.States.{is_live};
ghost use Rattle.chc_state.specs.PredSets.{set_of, retired};
ghost use Rattle.pass_slice.specs.Slices.{body_meets, head_meets};
ghost use Rattle.pass_slice.specs.Tables.{marked, places};

use chc_sorts::{List, NoMemory};
use chc_state::{Clause, PredDecl, State};
use std::alloc::Global;

/// Whether the predicate is marked. One past the table's end isn't.
pub(crate) fn is_marked(table: &[bool], p: u32) -> bool
    ensures { result ≡ marked table.now p }
{
    let i = p as usize;
    if i < table.len() { table[i] } else { false }
}

/// Whether some body atom is on a marked predicate.
pub(crate) fn body_is_marked(table: &[bool], c: &Clause) -> bool
    ensures { result ≡ body_meets (marked table.now) c.now }
{
    for a in c.body.as_slice() {
        if is_marked(table, a.pred) {
            return true;
        }
    }
    false
}

/// Whether the head is on a marked predicate.
pub(crate) fn head_is_marked(table: &[bool], c: &Clause) -> bool
    ensures { result ≡ head_meets (marked table.now) c.now }
{
    match &c.head {
        Some(a) => is_marked(table, a.pred),
        None => false,
    }
}

/// The table of the live predicates.
pub(crate) fn live_table(alloc: Global, s: &State) -> Result<Vec<bool>, NoMemory>
    ensures { IfOk result (λ table. table.items ≡ map (λ (d : PredDecl). d.live) s.now.preds) }
{
    let mut table = Vec::new(alloc);
    for d in s.preds().as_slice() {
        table.push(d.live)?;
    }
    Ok(table)
}

/// The table of that many places in which these numbers are marked.
pub(crate) fn table_of(alloc: Global, size: usize, ps: &[u32]) -> Result<Vec<bool>, NoMemory>
    requires { IsTrue (list_all (λ p. nat_lt p size) ps.now) }
    ensures { IfOk result (λ table. (p : ℕ) → marked table.items p ≡ set_of ps.now p) }
{
    let mut table = vec![in alloc; false; size]?;
    for p in ps {
        let i = *p as usize;
        if i < table.len() {
            table[i] = true;
        }
    }
    Ok(table)
}

/// The table of these predicates of the state.
pub(crate) fn table_for(alloc: Global, s: &State, ps: &List<u32>) -> Result<Vec<bool>, NoMemory>
    requires { IsTrue (list_all (is_live s.now.preds) ps.now) }
    ensures { IfOk result (λ table. (p : ℕ) → marked table.items p ≡ set_of ps.now p) }
{
    table_of(alloc, s.preds().len(), ps.as_slice())
}

/// The numbers of the marked places, ascending.
pub(crate) fn numbers(alloc: Global, table: &[bool]) -> Result<List<u32>, NoMemory>
    requires { length table.now < 2 ^ 32 }
    ensures { IfOk result (λ ps. ps ≡ places 0 table.now) }
{
    let mut ps = List::new(alloc);
    for i in 0..table.len() {
        push_if(table[i], &mut ps, i as u32)?;
    }
    Ok(ps)
}

/// The numbers of the marked places, ascending, or `None` where no place is marked.
pub(crate) fn some_numbers(alloc: Global, table: &[bool]) -> Result<Option<List<u32>>, NoMemory>
    requires { length table.now < 2 ^ 32 }
    ensures { IfOk result (λ found. MatchOption found (places 0 table.now ≡ []) (λ ps. (ps ≡ places 0 table.now) × (ps ≢ []))) }
{
    let ps = numbers(alloc, table)?;
    if ps.len() == 0 {
        Ok(None)
    } else {
        Ok(Some(ps))
    }
}

/// Adds `p` at the end if `wanted`.
pub(crate) fn push_if(wanted: bool, ps: &mut List<u32>, p: u32) -> Result<(), NoMemory>
    ensures { IfOk result (λ _. ps.new ≡ cond wanted (ps.old ++ p ∷ []) ps.old) }
{
    if wanted {
        ps.push(p)?;
    }
    Ok(())
}

/// The predicates, the marked ones no longer live.
pub(crate) fn retire(table: &[bool], preds: List<PredDecl>) -> List<PredDecl>
    requires { length preds < 2 ^ 32 }
    ensures { result ≡ retired (marked table.now) 0 preds }
{
    let mut decls = preds.into_vec();
    for i in 0..decls.len() {
        let live = stays_live(table, &decls[i], i as u32);
        decls[i].live = live;
    }
    List::from_vec(decls)
}

/// Whether the predicate of that number is live and not marked.
fn stays_live(table: &[bool], d: &PredDecl, p: u32) -> bool
    ensures { result ≡ (d.now.live && not (marked table.now p)) }
{
    d.live && !is_marked(table, p)
}

/// A list for each predicate, all empty.
pub(crate) fn empty_lists(alloc: Global, size: usize) -> Result<Vec<Vec<usize>>, NoMemory> {
    let mut lists = Vec::new(alloc);
    for _ in 0..size {
        lists.push(Vec::new(alloc))?;
    }
    Ok(lists)
}

/// Adds the clause number `k` to the list of the predicate `p`.
pub(crate) fn note(lists: &mut Vec<Vec<usize>>, p: u32, k: usize) -> Result<(), NoMemory> {
    if let Some(list) = lists.get_mut(p as usize) {
        list.push(k)?;
    }
    Ok(())
}
