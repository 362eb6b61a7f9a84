//! Texts of terms, written sorts and faults.

use chc_sexpr::{TextErr, TextFault};
use chc_sorts::{NoMemory, Op, SortSpec};
use chc_source::ByteText;
use chc_terms::{Kind, Term, Terms};
use std::alloc::Global;

/// Writes a letter and a number.
fn tell_number(alloc: Global, out: &mut ByteText, letter: u8, number: u64) -> Result<(), NoMemory> {
    out.push(letter)?;
    out.extend(format!(in alloc; "{number}")?.as_bytes())
}

/// Writes an integer.
fn tell_integer(alloc: Global, out: &mut ByteText, n: i128) -> Result<(), NoMemory> {
    out.extend(format!(in alloc; "{n}")?.as_bytes())
}

/// Writes a truth value.
fn tell_truth(out: &mut ByteText, truth: bool) -> Result<(), NoMemory> {
    if truth {
        out.extend(b"true")
    } else {
        out.extend(b"false")
    }
}

/// Writes an open parenthesis and an operator.
fn begin_operator(alloc: Global, out: &mut ByteText, op: &Op) -> Result<(), NoMemory> {
    out.extend(format!(in alloc; "({op:?}")?.as_bytes())
}

/// Writes an open parenthesis, a letter and a number.
fn begin_number(alloc: Global, out: &mut ByteText, letter: u8, n: u64) -> Result<(), NoMemory> {
    out.push(b'(')?;
    tell_number(alloc, out, letter, n)
}

/// Writes an open parenthesis, a quantifier and the number of its sorts.
fn begin_quantifier(
    alloc: Global,
    out: &mut ByteText,
    kind: Kind,
    count: usize,
) -> Result<(), NoMemory> {
    out.extend(format!(in alloc; "({kind:?} {count} ")?.as_bytes())
}

/// Writes a space and a term for each term, and a closing parenthesis.
#[cycle(told)]
fn tell_rest(alloc: Global, out: &mut ByteText, terms: &Terms) -> Result<(), NoMemory> {
    for term in terms.as_slice() {
        out.push(b' ')?;
        tell_term(alloc, out, term)?;
    }
    out.push(b')')
}

/// Writes a term: variables as `v0`, predicates as `p0`, definitions as `d0`, a quantifier with the number of its sorts.
#[cycle(told)]
fn tell_term(alloc: Global, out: &mut ByteText, term: &Term) -> Result<(), NoMemory> {
    match term {
        Term::Var(i) => tell_number(alloc, out, b'v', u64::from(*i)),
        Term::Num(n) => tell_integer(alloc, out, *n),
        Term::Lit(truth) => tell_truth(out, *truth),
        Term::App(op, terms) => {
            begin_operator(alloc, out, op)?;
            tell_rest(alloc, out, terms)
        }
        Term::Pred(p, terms) => {
            begin_number(alloc, out, b'p', u64::from(*p))?;
            tell_rest(alloc, out, terms)
        }
        Term::Call(k, terms) => {
            begin_number(alloc, out, b'd', *k)?;
            tell_rest(alloc, out, terms)
        }
        Term::Quant(kind, sorts, body) => {
            begin_quantifier(alloc, out, *kind, sorts.len())?;
            tell_term(alloc, out, body.get())?;
            out.push(b')')
        }
    }
}

/// Writes a written sort as a script has it.
fn tell_sort(out: &mut ByteText, sort: &SortSpec) -> Result<(), NoMemory> {
    match sort {
        SortSpec::Named(name) => out.extend(name.as_slice()),
        SortSpec::Array(index, element) => {
            out.extend(b"(Array ")?;
            tell_sort(out, index.get())?;
            out.push(b' ')?;
            tell_sort(out, element.get())?;
            out.push(b')')
        }
    }
}

/// Writes a fault, its place and its name.
fn tell_fault(alloc: Global, out: &mut ByteText, found: &TextFault) -> Result<(), NoMemory> {
    out.extend(found.fault.name())?;
    tell_number(alloc, out, b' ', found.place)?;
    out.push(b' ')?;
    out.extend(found.name.bytes())
}

/// The text of a term, or of the fault in its place.
pub fn term_told(alloc: Global, read: &Result<Term, TextErr>) -> Result<ByteText, NoMemory> {
    let mut out = ByteText::new(alloc);
    match read {
        Ok(term) => tell_term(alloc, &mut out, term)?,
        Err(TextErr::At(found)) => tell_fault(alloc, &mut out, found)?,
        Err(TextErr::NoMemory) => return Err(NoMemory),
    }
    Ok(out)
}

/// The text of a written sort, or of the fault in its place.
pub fn sort_told(alloc: Global, read: &Result<SortSpec, TextErr>) -> Result<ByteText, NoMemory> {
    let mut out = ByteText::new(alloc);
    match read {
        Ok(sort) => tell_sort(&mut out, sort)?,
        Err(TextErr::At(found)) => tell_fault(alloc, &mut out, found)?,
        Err(TextErr::NoMemory) => return Err(NoMemory),
    }
    Ok(out)
}
