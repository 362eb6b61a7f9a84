//! The texts of scripts, and of terms over a state.

ghost use Rattle.std.specs.Prelude.{◌≡◌, ◌≢◌, ℕ, ◌+◌, ◌≤◌, ◌^◌, ◌++◌, ◌↔◌, List, codes, map, length, IsTrue, IfOk, OnOk};
ghost use Rattle.std.specs.List.{concat};
ghost use Rattle.chc_sexpr.specs.Writing.{spaced};
ghost use Rattle.chc_print.specs.Script.{atom_text, head_text, part_texts, tail_text, matrix_text, closed, clause_text, declaration_text, live_text, declarations_text, lines_of_script, IsScriptText, IsTermText};

use crate::datatypes::write_groups;
use crate::helpers::predicate_names;
use crate::naming::Naming;
use crate::prefix::variable_prefix;
use crate::reach::state_reach;
use crate::text::{
    write_arguments, write_opening, write_quantifier, write_sorts, write_term, write_terms,
};
use chc_sexpr::write_symbol;
use chc_sorts::{List, Name, NoMemory};
use chc_source::ByteText;
use chc_state::{Atom, Clause, PredDecl, State};
use chc_terms::{Kind, Term};
use std::alloc::Global;

/// Writes an atom that stands under so many variables.
fn write_atom(out: &mut ByteText, names: &Naming, atom: &Atom, under: u128) -> Result<(), NoMemory>
    requires { under ≤ length out.old + 2 ^ 32 }
    ensures { OnOk result (out.new ≡ out.old ++ atom_text names.now under atom.now) }
{
    write_opening(out, atom.args.as_slice())?;
    write_symbol(out, names.pred_name(atom.pred as usize))?;
    write_arguments(out, names, atom.args.as_slice(), under)?;
    Ok(())
}

/// Writes atoms, with a space before each.
fn write_atoms(
    out: &mut ByteText,
    names: &Naming,
    atoms: &[Atom],
    under: u128,
) -> Result<(), NoMemory>
    requires { under ≤ length out.old + 2 ^ 32 }
    ensures { OnOk result (out.new ≡ out.old ++ spaced (map (atom_text names.now under) atoms.now)) }
{
    for atom in atoms {
        out.push(b' ')?;
        write_atom(out, names, atom, under)?;
    }
    Ok(())
}

/// Writes the head of a clause, or false where it has none.
fn write_head(
    out: &mut ByteText,
    names: &Naming,
    head: &Option<Atom>,
    under: u128,
) -> Result<(), NoMemory>
    requires { under ≤ length out.old + 2 ^ 32 }
    ensures { OnOk result (out.new ≡ out.old ++ head_text names.now under head.now) }
{
    match head {
        Some(atom) => write_atom(out, names, atom, under),
        None => out.extend(b"false"),
    }
}

/// Writes the body atoms and the conjuncts of a clause, with a space before each.
fn write_parts(out: &mut ByteText, names: &Naming, clause: &Clause) -> Result<(), NoMemory>
    requires { length clause.now.vars ≤ length out.old }
    ensures { OnOk result (out.new ≡ out.old ++ spaced (part_texts names.now clause.now)) }
{
    let under = clause.vars.len() as u128;
    write_atoms(out, names, clause.body.as_slice(), under)?;
    write_terms(out, names, clause.conj.as_slice(), under)?;
    Ok(())
}

/// Whether the clause has a body atom or a conjunct.
fn has_parts(clause: &Clause) -> bool
    ensures { IsTrue result ↔ (length clause.now.body + length clause.now.conj ≢ 0) }
{
    clause.body.len() > 0 || clause.conj.len() > 0
}

/// Whether the clause has exactly one body atom or conjunct.
fn has_one_part(clause: &Clause) -> bool
    ensures { IsTrue result ↔ (length clause.now.body + length clause.now.conj ≡ 1) }
{
    matches!((clause.body.len(), clause.conj.len()), (1, 0) | (0, 1))
}

/// Writes what the head of a clause follows from, with a space before it.
fn write_tail(out: &mut ByteText, names: &Naming, clause: &Clause) -> Result<(), NoMemory>
    requires some { length clause.now.body + length clause.now.conj ≢ 0 }
    requires room { length clause.now.vars ≤ length out.old }
    ensures { OnOk result (out.new ≡ out.old ++ codes " " ++ tail_text (part_texts names.now clause.now)) }
{
    if has_one_part(clause) {
        write_parts(out, names, clause)?;
    } else {
        out.extend(b" (and")?;
        write_parts(out, names, clause)?;
        out.push(b')')?;
    }
    Ok(())
}

/// Writes the matrix of a clause.
fn write_matrix(out: &mut ByteText, names: &Naming, clause: &Clause) -> Result<(), NoMemory>
    requires { length clause.now.vars ≤ length out.old }
    ensures { OnOk result (out.new ≡ out.old ++ matrix_text names.now clause.now) }
{
    let under = clause.vars.len() as u128;
    if has_parts(clause) {
        out.extend(b"(=>")?;
        write_tail(out, names, clause)?;
        out.push(b' ')?;
        write_head(out, names, &clause.head, under)?;
        out.push(b')')?;
    } else {
        write_head(out, names, &clause.head, under)?;
    }
    Ok(())
}

/// Writes the matrix of a clause, under a quantifier over the variables where there are any.
fn write_closed(out: &mut ByteText, names: &Naming, clause: &Clause) -> Result<(), NoMemory>
    ensures { OnOk result (out.new ≡ out.old ++ closed names.now clause.now.vars (matrix_text names.now clause.now)) }
{
    if clause.vars.len() == 0 {
        write_matrix(out, names, clause)?;
    } else {
        write_quantifier(out, names, Kind::Forall, 0, clause.vars.as_slice())?;
        write_matrix(out, names, clause)?;
        out.push(b')')?;
    }
    Ok(())
}

/// Writes the line of a clause.
fn write_clause(out: &mut ByteText, names: &Naming, clause: &Clause) -> Result<(), NoMemory>
    ensures { OnOk result (out.new ≡ out.old ++ clause_text names.now clause.now) }
{
    out.extend(b"(assert ")?;
    write_closed(out, names, clause)?;
    out.extend(b")\n")?;
    Ok(())
}

/// Writes the lines of the clauses.
pub fn write_clauses(out: &mut ByteText, names: &Naming, clauses: &[Clause]) -> Result<(), NoMemory>
    ensures { OnOk result (out.new ≡ out.old ++ concat (map (clause_text names.now) clauses.now)) }
{
    for clause in clauses {
        write_clause(out, names, clause)?;
    }
    Ok(())
}

/// Writes the line that declares a predicate.
fn write_declaration(
    out: &mut ByteText,
    names: &Naming,
    p: usize,
    declared: &PredDecl,
) -> Result<(), NoMemory>
    ensures { OnOk result (out.new ≡ out.old ++ declaration_text names.now p declared.now) }
{
    out.extend(b"(declare-fun ")?;
    write_symbol(out, names.pred_name(p))?;
    out.extend(b" (")?;
    write_sorts(out, names.signature(), declared.sorts.as_slice())?;
    out.extend(b") Bool)\n")?;
    Ok(())
}

/// Writes the line that declares a predicate, if it is live.
fn write_live(
    out: &mut ByteText,
    names: &Naming,
    p: usize,
    declared: &PredDecl,
) -> Result<(), NoMemory>
    ensures { OnOk result (out.new ≡ out.old ++ live_text names.now p declared.now) }
{
    if declared.live {
        write_declaration(out, names, p, declared)?;
    }
    Ok(())
}

/// Writes the lines that declare the live predicates.
pub fn write_declarations(
    out: &mut ByteText,
    names: &Naming,
    preds: &[PredDecl],
) -> Result<(), NoMemory>
    ensures { OnOk result (out.new ≡ out.old ++ declarations_text names.now 0 preds.now) }
{
    for (p, declared) in preds.iter().enumerate() {
        write_live(out, names, p, declared)?;
    }
    Ok(())
}

/// The text of the script of a state, with the names given.
fn text_of(alloc: Global, s: &State, names: &Naming) -> Result<ByteText, NoMemory>
    ensures { IfOk result (λ text. text ≡ lines_of_script names.now s.now) }
{
    let mut out = ByteText::new(alloc);
    out.extend(b"(set-logic HORN)\n")?;
    write_groups(&mut out, names.signature(), state_reach(s))?;
    write_declarations(&mut out, names, s.preds().as_slice())?;
    write_clauses(&mut out, names, s.clauses().as_slice())?;
    out.extend(b"(check-sat)\n")?;
    Ok(out)
}

/// The text of the script of a state, in which these are the names of the script's predicates by number, live or not, and
/// the later ones are helpers, named `goal!` and a number: the groups of datatypes up to the last one of which the state
/// uses a datatype, the live predicates, and the clauses. The text ends with `(check-sat)`. It is the only text of the
/// state's script. The only error is that memory was refused.
pub fn script_text(alloc: Global, s: &State, names: &List<Name>) -> Result<ByteText, NoMemory>
    ensures text { IfOk result (IsScriptText s.now names.now) }
    ensures only { IfOk result (λ text. (other : List ℕ) → IsScriptText s.now names.now other → other ≡ text) }
{
    let prefix = variable_prefix(alloc, s.sig(), names.as_slice())?;
    let preds = predicate_names(alloc, s, names.as_slice())?;
    let calls = List::new(alloc);
    let naming = Naming {
        sig: s.sig(),
        preds: &preds,
        calls: &calls,
        prefix: prefix.bytes(),
    };
    text_of(alloc, s, &naming)
}

/// The text of a term that stands under so many variables over a state, in which these are the names of the script's
/// predicates by number, live or not, and those of the definitions. Variables and helpers are named as in the text of the
/// state's script. A definition without a name is written with the empty one. It is the only such text. The only error is
/// that memory was refused.
pub fn term_text(
    alloc: Global,
    t: &Term,
    under: u32,
    calls: &List<Name>,
    s: &State,
    names: &List<Name>,
) -> Result<ByteText, NoMemory>
    ensures text { IfOk result (IsTermText s.now names.now calls.now under t.now) }
    ensures only { IfOk result (λ text. (other : List ℕ) → IsTermText s.now names.now calls.now under t.now other → other ≡ text) }
{
    let prefix = variable_prefix(alloc, s.sig(), names.as_slice())?;
    let preds = predicate_names(alloc, s, names.as_slice())?;
    let naming = Naming {
        sig: s.sig(),
        preds: &preds,
        calls,
        prefix: prefix.bytes(),
    };
    let mut out = ByteText::new(alloc);
    write_term(&mut out, &naming, t, u128::from(under))?;
    Ok(out)
}
