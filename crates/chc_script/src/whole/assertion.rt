//! Assertions from trees.

ghost use Rattle.std.specs.Prelude.{◌≡◌, ◌<◌, ◌^◌, true, [], Ok, IfOk, IsTrue, OnOk};
ghost use Rattle.chc_sorts.specs.declared.sort.Sort.TheVariants.{Bool};
ghost use Rattle.chc_sorts.specs.Sorts.{same_sort};
ghost use Rattle.chc_sexpr.specs.Counts.{count, count_all};
ghost use Rattle.chc_elab.specs.Reads.{elaborated_with_sort};
ghost use Rattle.chc_elab.specs.Sites.{Tells};
ghost use Rattle.chc_state.specs.WellFormed.{term_fits};
ghost use Rattle.chc_script.specs.Asserts.{assert, asserted, assertion_added, clause_at, condition};
ghost use Rattle.chc_script.specs.Drafted.{IsCondition};
ghost use Rattle.chc_script.specs.Drafts.{setting};
ghost use Rattle.chc_script.specs.Horn.{clause_of};
ghost use Rattle.chc_script.specs.Spellable.{are_spellable, is_spellable};

use crate::horn::{HornErr, clause_of};
use crate::whole::draft::Draft;
use chc_elab::{Scope, SortedTerm, elab_sorted, fault, what_is_read_is_well_sorted};
use chc_sexpr::{Fault, TextErr, Tree};
use chc_sorts::{List, Sort, same_sort};
use chc_state::Clause;
use chc_terms::Term;
use std::alloc::Global;

/// Nothing where the term is of sort Bool. Errors: `At` the place with `WrongSort`; `NoMemory`.
fn check_condition(alloc: Global, place: u64, term: &SortedTerm) -> Result<(), TextErr>
    ensures value { Tells result (condition place term.now) }
    ensures truth { OnOk result (same_sort term.now.sort Bool ≡ true) }
{
    if same_sort(&term.sort, &Sort::Bool) {
        return Ok(());
    }
    fault(alloc, place, Fault::WrongSort)
}

/// The clause of an assertion. Errors: `At` the place with `QuantInside` or `NotHorn`; `NoMemory`.
fn read_clause(alloc: Global, place: u64, term: &Term) -> Result<Clause, TextErr>
    ensures value { Tells result (clause_at place (clause_of term.now)) }
    ensures says { IfOk result (λ clause. clause_of term.now ≡ Ok clause) }
{
    match clause_of(alloc, term) {
        Ok(clause) => Ok(clause),
        Err(HornErr::QuantInside) => fault(alloc, place, Fault::QuantInside),
        Err(HornErr::NotHorn) => fault(alloc, place, Fault::NotHorn),
        Err(HornErr::NoMemory) => Err(TextErr::NoMemory),
    }
}

/// The term of an assertion's tree, with its sort. Errors are those of `elab`.
fn read_term(alloc: Global, draft: &Draft, tree: &Tree) -> Result<SortedTerm, TextErr>
    requires { count tree.now < 2 ^ 32 }
    ensures { Tells result (elaborated_with_sort (setting draft.now) [] [] tree.now) }
{
    let names = List::new(alloc);
    let sorts = List::new(alloc);
    let scope = Scope {
        sig: draft.sig(),
        symbols: draft.symbols(),
        names: &names,
        sorts: &sorts,
    };
    elab_sorted(alloc, tree, &scope)
}

/// Adds the assertion of a term.
fn add(alloc: Global, draft: Draft, place: u64, term: Term) -> Result<Draft, TextErr>
    requires sorted { IsCondition draft.sig draft.preds.decls term }
    requires fitting { IsTrue (term_fits draft.sig term) }
    ensures { Tells result (assertion_added draft place term) }
{
    let clause = read_clause(alloc, place, &term)?;
    draft.add_clause(alloc, place, term, clause)
}

/// Adds the assertion of a tree.
fn assert_tree(alloc: Global, draft: Draft, place: u64, tree: &Tree) -> Result<Draft, TextErr>
    requires few { count tree.now < 2 ^ 32 }
    requires spellable { IsTrue (is_spellable tree.now) }
    ensures { Tells result (asserted draft place tree.now) }
{
    what_is_read_is_well_sorted();
    draft.check_logic(alloc, place)?;
    let term = read_term(alloc, &draft, tree)?;
    check_condition(alloc, place, &term)?;
    add(alloc, draft, place, term.term)
}

/// `(assert F)`
pub fn assert(alloc: Global, draft: Draft, place: u64, args: &[Tree]) -> Result<Draft, TextErr>
    requires few { count_all args.now < 2 ^ 32 }
    requires spellable { IsTrue (are_spellable args.now) }
    ensures { Tells result (assert draft place args.now) }
{
    match args {
        [tree] => assert_tree(alloc, draft, place, tree),
        [] | [_, _, ..] => fault(alloc, place, Fault::BadCommand),
    }
}
