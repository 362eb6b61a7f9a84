//! Clauses that may stand in a state.

ghost use Rattle.std.specs.Prelude.{◌≡◌, ◌<◌, ◌^◌, Some, IfOk, length, slice_get};
ghost use Rattle.std.specs.List.{list_all};
ghost use Rattle.chc_sorts.specs.Sorts.{sort_fits};
ghost use Rattle.chc_terms.specs.Sorted.{is_plain as is_plain_term, sort_of, sorts_of};
ghost use Rattle.chc_state.specs.States.{clause_uses_live, head_all, on_live};
ghost use Rattle.chc_state.specs.Sorts.{are_sorts, clause_context, is_condition, is_sorted_atom, is_sorted_clause, positions, positions_fit};
ghost use Rattle.chc_state.specs.WellFormed.{atom_fits, clause_fits, first_bad, is_part, is_well_formed, may_stand, term_fits};

use crate::clause::{Atom, Clause, PredDecl};
use chc_sorts::{List, NoMemory, Op, Sig, Sort, same_sort, same_sorts};
use chc_terms::{
    Context, Term, are_fitting, is_plain, numbers_fit, sort_if_any, sorts_fit, sorts_if_any,
};
use std::alloc::Global;

/// Whether the sorts of each predicate's positions fit.
fn each_fits(sig: &Sig, preds: &[PredDecl]) -> bool
    ensures { result ≡ list_all (λ d. list_all (sort_fits sig.now) d.sorts) preds.now }
{
    preds.iter().all(|decl| are_fitting(sig, &decl.sorts))
}

/// Whether the sorts of all positions name datatypes of the signature alone, and are at most 16 deep.
pub fn positions_fit(sig: &Sig, preds: &List<PredDecl>) -> bool
    ensures { result ≡ positions_fit sig.now preds.now }
{
    each_fits(sig, preds.as_slice())
}

/// Whether the predicate of the atom is live.
fn is_on_live(preds: &List<PredDecl>, atom: &Atom) -> bool
    ensures { result ≡ on_live preds.now atom.now }
{
    match preds.get(atom.pred as usize) {
        Some(decl) => decl.live,
        None => false,
    }
}

/// Whether the head is on a live predicate, where there is one.
fn is_head_on_live(preds: &List<PredDecl>, head: &Option<Atom>) -> bool
    ensures { result ≡ head_all (on_live preds.now) head.now }
{
    match head {
        Some(atom) => is_on_live(preds, atom),
        None => true,
    }
}

/// Whether each of the atoms is on a live predicate.
fn are_on_live(preds: &List<PredDecl>, atoms: &[Atom]) -> bool
    ensures { result ≡ list_all (on_live preds.now) atoms.now }
{
    atoms.iter().all(|atom| is_on_live(preds, atom))
}

/// Whether the clause uses live predicates alone.
fn uses_live(preds: &List<PredDecl>, clause: &Clause) -> bool
    ensures { result ≡ clause_uses_live preds.now clause.now }
{
    are_on_live(preds, clause.body.as_slice()) && is_head_on_live(preds, &clause.head)
}

/// The sort of a clause's term under variables of these sorts, or `None` where it isn't well sorted.
fn sort_in(alloc: Global, sig: &Sig, vars: &List<Sort>, t: &Term) -> Result<Option<Sort>, NoMemory>
    ensures { IfOk result (λ sort. sort ≡ sort_of (clause_context sig.now) t.now vars.now) }
{
    let preds = List::new(alloc);
    let defs = List::new(alloc);
    let cx = Context {
        sig,
        vars,
        preds: &preds,
        defs: &defs,
    };
    sort_if_any(alloc, t, &cx)
}

/// The sorts of an atom's arguments under variables of these sorts, or `None` where one isn't well sorted.
fn sorts_in(
    alloc: Global,
    sig: &Sig,
    vars: &List<Sort>,
    terms: &List<Term>,
) -> Result<Option<List<Sort>>, NoMemory>
    ensures { IfOk result (λ sorts. sorts ≡ sorts_of (clause_context sig.now) terms.now vars.now) }
{
    let preds = List::new(alloc);
    let defs = List::new(alloc);
    let cx = Context {
        sig,
        vars,
        preds: &preds,
        defs: &defs,
    };
    sorts_if_any(alloc, terms, &cx)
}

/// Whether the term is plain and of sort Bool.
fn is_condition(alloc: Global, sig: &Sig, vars: &List<Sort>, t: &Term) -> Result<bool, NoMemory>
    ensures { IfOk result (λ passes. passes ≡ is_condition sig.now vars.now t.now) }
{
    if !is_plain(t) {
        return Ok(false);
    }
    match sort_in(alloc, sig, vars, t)? {
        Some(sort) => Ok(same_sort(&sort, &Sort::Bool)),
        None => Ok(false),
    }
}

/// Whether each of the terms is plain and of sort Bool.
fn are_conditions(
    alloc: Global,
    sig: &Sig,
    vars: &List<Sort>,
    terms: &[Term],
) -> Result<bool, NoMemory>
    ensures { IfOk result (λ passes. passes ≡ list_all (is_condition sig.now vars.now) terms.now) }
{
    for t in terms {
        if !is_condition(alloc, sig, vars, t)? {
            return Ok(false);
        }
    }
    Ok(true)
}

/// Whether these are the sorts of the predicate's positions.
#[tactic(auto, using(crate::proofs::Forming::positions_steps))]
fn are_positions(preds: &List<PredDecl>, pred: u32, sorts: &List<Sort>) -> bool
    ensures { result ≡ are_sorts (Some sorts.now) (slice_get (positions preds.now) pred) }
{
    match preds.get(pred as usize) {
        Some(decl) => same_sorts(sorts.as_slice(), decl.sorts.as_slice()),
        None => false,
    }
}

/// Whether each of the terms is plain.
fn are_plain(terms: &[Term]) -> bool
    ensures { result ≡ list_all is_plain_term terms.now }
{
    terms.iter().all(|t| is_plain(t))
}

/// Whether the atom's arguments are plain, and of the sorts of its predicate's positions.
fn is_sorted_atom(
    alloc: Global,
    sig: &Sig,
    preds: &List<PredDecl>,
    vars: &List<Sort>,
    atom: &Atom,
) -> Result<bool, NoMemory>
    ensures { IfOk result (λ passes. passes ≡ is_sorted_atom sig.now (positions preds.now) vars.now atom.now) }
{
    if !are_plain(atom.args.as_slice()) {
        return Ok(false);
    }
    match sorts_in(alloc, sig, vars, &atom.args)? {
        Some(sorts) => Ok(are_positions(preds, atom.pred, &sorts)),
        None => Ok(false),
    }
}

/// Whether each of the atoms is well sorted.
fn are_sorted_atoms(
    alloc: Global,
    sig: &Sig,
    preds: &List<PredDecl>,
    vars: &List<Sort>,
    atoms: &[Atom],
) -> Result<bool, NoMemory>
    ensures { IfOk result (λ passes. passes ≡ list_all (is_sorted_atom sig.now (positions preds.now) vars.now) atoms.now) }
{
    for atom in atoms {
        if !is_sorted_atom(alloc, sig, preds, vars, atom)? {
            return Ok(false);
        }
    }
    Ok(true)
}

/// Whether the head is well sorted, where there is one.
fn is_sorted_head(
    alloc: Global,
    sig: &Sig,
    preds: &List<PredDecl>,
    vars: &List<Sort>,
    head: &Option<Atom>,
) -> Result<bool, NoMemory>
    ensures { IfOk result (λ passes. passes ≡ head_all (is_sorted_atom sig.now (positions preds.now) vars.now) head.now) }
{
    match head {
        Some(atom) => is_sorted_atom(alloc, sig, preds, vars, atom),
        None => Ok(true),
    }
}

/// Whether all conjuncts and atoms of the clause are well sorted.
fn is_sorted(
    alloc: Global,
    sig: &Sig,
    preds: &List<PredDecl>,
    clause: &Clause,
) -> Result<bool, NoMemory>
    ensures { IfOk result (λ passes. passes ≡ is_sorted_clause sig.now (positions preds.now) clause.now) }
{
    let vars = &clause.vars;
    let conj = are_conditions(alloc, sig, vars, clause.conj.as_slice())?;
    let body = are_sorted_atoms(alloc, sig, preds, vars, clause.body.as_slice())?;
    let head = is_sorted_head(alloc, sig, preds, vars, &clause.head)?;
    Ok(conj && body && head)
}

/// Whether the sorts that the term writes out fit, and its numbers are in range.
fn term_fits(sig: &Sig, t: &Term) -> bool
    ensures { result ≡ term_fits sig.now t.now }
{
    sorts_fit(t, sig) && numbers_fit(t)
}

/// Whether each of the terms fits.
fn terms_fit(sig: &Sig, terms: &[Term]) -> bool
    ensures { result ≡ list_all (term_fits sig.now) terms.now }
{
    terms.iter().all(|t| term_fits(sig, t))
}

/// Whether the arguments of each of the atoms fit.
fn atoms_fit(sig: &Sig, atoms: &[Atom]) -> bool
    ensures { result ≡ list_all (atom_fits sig.now) atoms.now }
{
    atoms
        .iter()
        .all(|atom| terms_fit(sig, atom.args.as_slice()))
}

/// Whether the arguments of the head fit, where there is one.
fn head_fits(sig: &Sig, head: &Option<Atom>) -> bool
    ensures { result ≡ head_all (atom_fits sig.now) head.now }
{
    match head {
        Some(atom) => terms_fit(sig, atom.args.as_slice()),
        None => true,
    }
}

/// Whether the sorts of the clause's variables fit, and all its terms.
fn clause_fits(sig: &Sig, clause: &Clause) -> bool
    ensures { result ≡ clause_fits sig.now clause.now }
{
    are_fitting(sig, &clause.vars)
        && terms_fit(sig, clause.conj.as_slice())
        && atoms_fit(sig, clause.body.as_slice())
        && head_fits(sig, &clause.head)
}

/// Whether the term is neither a conjunction nor `true`.
fn is_part(t: &Term) -> bool
    ensures { result ≡ is_part t.now }
{
    match t {
        Term::Lit(b) => !*b,
        Term::App(op, _) => !matches!(op, Op::And),
        Term::Var(_) | Term::Num(_) | Term::Pred(_, _) | Term::Quant(_, _, _) | Term::Call(_, _) =>
            { true }
    }
}

/// Whether each of the terms is neither a conjunction nor `true`.
fn are_parts(terms: &[Term]) -> bool
    ensures { result ≡ list_all is_part terms.now }
{
    terms.iter().all(|t| is_part(t))
}

/// Whether the clause is well formed over these predicates.
fn is_well_formed(
    alloc: Global,
    sig: &Sig,
    preds: &List<PredDecl>,
    clause: &Clause,
) -> Result<bool, NoMemory>
    ensures { IfOk result (λ passes. passes ≡ is_well_formed sig.now (positions preds.now) clause.now) }
{
    let sorted = is_sorted(alloc, sig, preds, clause)?;
    Ok(sorted && clause_fits(sig, clause) && are_parts(clause.conj.as_slice()))
}

/// Whether the clause is well formed, and uses live predicates alone.
fn may_stand(
    alloc: Global,
    sig: &Sig,
    preds: &List<PredDecl>,
    clause: &Clause,
) -> Result<bool, NoMemory>
    ensures { IfOk result (λ passes. passes ≡ may_stand sig.now preds.now clause.now) }
{
    let formed = is_well_formed(alloc, sig, preds, clause)?;
    Ok(formed && uses_live(preds, clause))
}

/// The number of the first clause that isn't well formed or uses a predicate that isn't live.
pub fn first_bad(
    alloc: Global,
    sig: &Sig,
    preds: &List<PredDecl>,
    clauses: &List<Clause>,
) -> Result<Option<u32>, NoMemory>
    requires { length clauses.now < 2 ^ 32 }
    ensures { IfOk result (λ found. found ≡ first_bad sig.now preds.now clauses.now) }
{
    for (k, clause) in clauses.as_slice().iter().enumerate() {
        if !may_stand(alloc, sig, preds, clause)? {
            return Ok(Some(k as u32));
        }
    }
    Ok(None)
}
