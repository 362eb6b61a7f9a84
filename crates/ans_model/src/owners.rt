//! The names of definitions.

ghost use Rattle.std.specs.Prelude.{◌≡◌, ◌+◌, count_by, is_none, IfOk};
ghost use Rattle.chc_print.specs.Texts.{name_at};
ghost use Rattle.chc_state.specs.Definitions.{Defines};
ghost use Rattle.ans_model.specs.Texts.{AreOwners, NamesDefinitions, called};

use crate::names::name_of;
use chc_print::{helper_names, used_names};
use chc_sorts::{List, Name, NoMemory};
use chc_state::{Defs, State};
use std::alloc::Global;

/// For each definition the predicate that it defines, if it defines one.
fn owners_of(alloc: Global, d: &Defs, s: &State) -> Result<Vec<Option<usize>>, NoMemory>
    requires { Defines d.now s.now }
    ensures { IfOk result (λ owners. AreOwners d.now owners.items) }
{
    let mut owners = vec![in alloc; None; d.list.len()]?;
    for (p, entry) in d.of.as_slice().iter().enumerate() {
        if let Some(k) = entry {
            owners[*k as usize] = Some(p);
        }
    }
    Ok(owners)
}

/// How many definitions are no predicate's.
fn count_others(owners: &[Option<usize>]) -> usize
    ensures { result ≡ count_by is_none owners.now }
{
    let mut count = 0;
    for owner in owners {
        if owner.is_none() {
            count += 1;
        }
    }
    count
}

/// The name of that number, or the empty name where there is none.
fn name_at(names: &[Name], i: usize) -> &[u8]
    ensures { result.now ≡ name_at names.now i }
{
    match names.get(i) {
        Some(name) => name.as_slice(),
        None => &[],
    }
}

/// The names of definitions with these owners: those of the predicates, and for the others `lifts` in order.
fn names_by_owners(
    alloc: Global,
    preds: &[Name],
    lifts: &[Name],
    owners: &[Option<usize>],
) -> Result<List<Name>, NoMemory>
    ensures { IfOk result (λ calls. calls ≡ called preds.now lifts.now 0 owners.now) }
{
    let mut calls = List::new(alloc);
    let mut others = 0;
    for owner in owners {
        match owner {
            Some(p) => calls.push(name_of(alloc, name_at(preds, *p))?)?,
            None => {
                calls.push(name_of(alloc, name_at(lifts, others))?)?;
                others += 1;
            }
        }
    }
    Ok(calls)
}

/// The names of the definitions by number: that of the predicate, and `lift!` with a number for each definition that is
/// none's. The script's predicates have the names given, and all predicates these.
pub fn definition_names(
    alloc: Global,
    d: &Defs,
    s: &State,
    names: &[Name],
    preds: &[Name],
) -> Result<List<Name>, NoMemory>
    requires { Defines d.now s.now }
    ensures { IfOk result (NamesDefinitions s.now names.now preds.now d.now) }
{
    let owners = owners_of(alloc, d, s)?;
    let used = used_names(alloc, s.sig(), names)?;
    let count = count_others(owners.as_slice());
    let lifts = helper_names(alloc, used.as_slice(), b"lift!", count)?;
    names_by_owners(alloc, preds, lifts.as_slice(), owners.as_slice())
}
