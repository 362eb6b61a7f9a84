//! Equal states on fresh memory.

ghost use Rattle.std.specs.Prelude.{◌≡◌, IfOk};

use chc_sorts::{List, NoMemory, copy_sorts};
use chc_state::{Atom, Clause, PredDecl, State};
use chc_terms::copy_terms;
use std::alloc::Global;

/// An equal declaration.
fn copy_decl(alloc: Global, decl: &PredDecl) -> Result<PredDecl, NoMemory>
    ensures { IfOk result (λ d. d ≡ decl.now) }
{
    let sorts = copy_sorts(alloc, &decl.sorts)?;
    Ok(PredDecl {
        sorts,
        live: decl.live,
    })
}

/// Equal declarations, in the same order.
fn copy_decls(alloc: Global, decls: &List<PredDecl>) -> Result<List<PredDecl>, NoMemory>
    ensures { IfOk result (λ l. l ≡ decls.now) }
{
    let mut copies = List::new(alloc);
    for decl in decls.as_slice() {
        copies.push(copy_decl(alloc, decl)?)?;
    }
    Ok(copies)
}

/// An equal atom.
fn copy_atom(alloc: Global, atom: &Atom) -> Result<Atom, NoMemory>
    ensures { IfOk result (λ a. a ≡ atom.now) }
{
    let args = copy_terms(alloc, &atom.args)?;
    Ok(Atom {
        pred: atom.pred,
        args,
    })
}

/// Equal atoms, in the same order.
fn copy_atoms(alloc: Global, atoms: &List<Atom>) -> Result<List<Atom>, NoMemory>
    ensures { IfOk result (λ l. l ≡ atoms.now) }
{
    let mut copies = List::new(alloc);
    for atom in atoms.as_slice() {
        copies.push(copy_atom(alloc, atom)?)?;
    }
    Ok(copies)
}

/// An equal head, where there is one.
fn copy_head(alloc: Global, head: &Option<Atom>) -> Result<Option<Atom>, NoMemory>
    ensures { IfOk result (λ h. h ≡ head.now) }
{
    match head {
        Some(atom) => Ok(Some(copy_atom(alloc, atom)?)),
        None => Ok(None),
    }
}

/// An equal clause.
fn copy_clause(alloc: Global, clause: &Clause) -> Result<Clause, NoMemory>
    ensures { IfOk result (λ c. c ≡ clause.now) }
{
    let vars = copy_sorts(alloc, &clause.vars)?;
    let conj = copy_terms(alloc, &clause.conj)?;
    let body = copy_atoms(alloc, &clause.body)?;
    let head = copy_head(alloc, &clause.head)?;
    Ok(Clause {
        vars,
        conj,
        body,
        head,
        weight: clause.weight,
    })
}

/// Equal clauses, in the same order.
fn copy_clauses(alloc: Global, clauses: &List<Clause>) -> Result<List<Clause>, NoMemory>
    ensures { IfOk result (λ l. l ≡ clauses.now) }
{
    let mut copies = List::new(alloc);
    for clause in clauses.as_slice() {
        copies.push(copy_clause(alloc, clause)?)?;
    }
    Ok(copies)
}

/// An equal state.
pub(crate) fn copy_state(alloc: Global, s: &State) -> Result<State, NoMemory>
    ensures { IfOk result (λ z. z ≡ s.now) }
{
    let sig = s.sig().copy(alloc)?;
    let preds = copy_decls(alloc, s.preds())?;
    let clauses = copy_clauses(alloc, s.clauses())?;
    Ok(State::of_parts(sig, preds, clauses))
}
