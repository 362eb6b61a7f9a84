//! Clauses as text, for tests: variables, weight, conditions, body atoms and head.

use chc_sorts::{NoMemory, name_of};
use chc_source::ByteText;
use chc_state::{Atom, Clause};
use chc_terms::{Kind, Term, Terms};
use std::alloc::Global;

#[cycle(show)]
fn show_applied(
    alloc: Global,
    out: &mut ByteText,
    head: &[u8],
    args: &Terms,
) -> Result<(), NoMemory> {
    out.extend(b" (")?;
    out.extend(head)?;
    for arg in args.as_slice() {
        show_term(alloc, out, arg)?;
    }
    out.push(b')')
}

#[cycle(show)]
fn show_term(alloc: Global, out: &mut ByteText, term: &Term) -> Result<(), NoMemory> {
    match term {
        Term::Var(number) => out.extend(format!(in alloc; " x{number}")?.as_bytes()),
        Term::Num(number) => out.extend(format!(in alloc; " {number}")?.as_bytes()),
        Term::Lit(truth) => out.extend(format!(in alloc; " {truth}")?.as_bytes()),
        Term::App(op, args) => match name_of(op) {
            Some(name) => show_applied(alloc, out, name, args),
            None => out.extend(b" ?"),
        },
        Term::Pred(pred, args) => {
            show_applied(alloc, out, format!(in alloc; "p{pred}")?.as_bytes(), args)
        }
        Term::Quant(Kind::Forall, sorts, body) => {
            let vars = sorts.len();
            out.extend(format!(in alloc; " (forall {vars}")?.as_bytes())?;
            show_term(alloc, out, body.get())?;
            out.push(b')')
        }
        _ => out.push(b'?'),
    }
}

fn show_terms(alloc: Global, out: &mut ByteText, terms: &Terms) -> Result<(), NoMemory> {
    for term in terms.as_slice() {
        show_term(alloc, out, term)?;
    }
    Ok(())
}

fn show_atom(alloc: Global, out: &mut ByteText, atom: &Atom) -> Result<(), NoMemory> {
    let pred = atom.pred;
    out.extend(format!(in alloc; " ({pred}")?.as_bytes())?;
    show_terms(alloc, out, &atom.args)?;
    out.push(b')')
}

/// Adds a line for a clause.
pub(crate) fn show_clause(
    alloc: Global,
    out: &mut ByteText,
    clause: &Clause,
) -> Result<(), NoMemory> {
    let vars = clause.vars.len();
    let weight = clause.weight;
    out.extend(format!(in alloc; "{vars} {weight}:")?.as_bytes())?;
    show_terms(alloc, out, &clause.conj)?;
    out.extend(b" |")?;
    for atom in clause.body.as_slice() {
        show_atom(alloc, out, atom)?;
    }
    out.extend(b" =>")?;
    if let Some(head) = &clause.head {
        show_atom(alloc, out, head)?;
    }
    out.push(b'\n')
}

/// Adds a line for each clause.
pub(crate) fn show_clauses(
    alloc: Global,
    out: &mut ByteText,
    clauses: &[Clause],
) -> Result<(), NoMemory> {
    for clause in clauses {
        show_clause(alloc, out, clause)?;
    }
    Ok(())
}
