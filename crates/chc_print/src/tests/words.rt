//! Parts of states from short words: a byte for each sort, term and atom.

use chc_sorts::{Boxed, CtorSpec, DataSpec, FieldSpec, List, Name, NoMemory, Op, Sort, SortSpec};
use chc_state::{Atom, Clause, PredDecl};
use chc_terms::{Term, Terms};
use std::alloc::Global;

/// The name of those bytes.
pub(super) fn name(alloc: Global, bytes: &[u8]) -> Result<Name, NoMemory> {
    let mut name = List::new(alloc);
    for b in bytes {
        name.push(*b)?;
    }
    Ok(name)
}

/// The names of those bytes.
pub(super) fn names(alloc: Global, all: &[&[u8]]) -> Result<List<Name>, NoMemory> {
    let mut names = List::new(alloc);
    for bytes in all {
        names.push(name(alloc, bytes)?)?;
    }
    Ok(names)
}

/// The number of a digit.
fn digit(letter: u8) -> u32 {
    u32::from(letter.saturating_sub(b'0'))
}

/// `I` is Int, `A` the arrays of Ints, and a digit the datatype of that number.
fn sort(alloc: Global, letter: u8) -> Result<Sort, NoMemory> {
    match letter {
        b'I' => Ok(Sort::Int),
        b'A' => Ok(Sort::Array(Boxed::new(alloc, Sort::Int)?)),
        _ => Ok(Sort::Data(digit(letter))),
    }
}

/// The sorts of the letters.
pub(super) fn sorts(alloc: Global, word: &[u8]) -> Result<List<Sort>, NoMemory> {
    let mut sorts = List::new(alloc);
    for letter in word {
        sorts.push(sort(alloc, *letter)?)?;
    }
    Ok(sorts)
}

/// The operator of a letter, with the number of its arguments: `N` and `H` are the first constructor of the datatype 0 and
/// the first selector of its second.
fn op(letter: u8) -> Option<(Op, usize)> {
    match letter {
        b'=' => Some((Op::Eq, 2)),
        b'<' => Some((Op::Lt, 2)),
        b'L' => Some((Op::Le, 2)),
        b'+' => Some((Op::Add, 2)),
        b'@' => Some((Op::Select, 2)),
        b'?' => Some((Op::Ite, 3)),
        b'N' => Some((Op::Make(0, 0), 0)),
        b'H' => Some((Op::Get(0, 1, 0), 1)),
        _ => None,
    }
}

/// A digit is its number, `m` the number -5, and `a` to `d` are the variables 0 to 3.
fn leaf(letter: u8) -> Term {
    match letter {
        b'a' => Term::Var(0),
        b'b' => Term::Var(1),
        b'c' => Term::Var(2),
        b'd' => Term::Var(3),
        b'm' => Term::Num(-5),
        _ => Term::Num(i128::from(digit(letter))),
    }
}

/// Takes the last terms off, so many of them, in their order.
fn last(alloc: Global, made: &mut Terms, count: usize) -> Result<Terms, NoMemory> {
    let mut terms = List::new(alloc);
    let start = made.len().saturating_sub(count);
    for _ in 0..count {
        if start < made.len() {
            terms.push(made.remove(start))?;
        }
    }
    Ok(terms)
}

/// The term that a letter makes of those before it.
fn next_term(alloc: Global, letter: u8, made: &mut Terms) -> Result<Term, NoMemory> {
    match op(letter) {
        Some((op, count)) => Ok(Term::App(op, last(alloc, made, count)?)),
        None => Ok(leaf(letter)),
    }
}

/// The terms of a word in postfix notation.
pub(super) fn terms(alloc: Global, word: &[u8]) -> Result<Terms, NoMemory> {
    let mut made = List::new(alloc);
    for letter in word {
        let term = next_term(alloc, *letter, &mut made)?;
        made.push(term)?;
    }
    Ok(made)
}

/// The atom of a digit, which is its predicate, and its arguments in postfix notation; none for no word.
fn atom(alloc: Global, word: &[u8]) -> Result<Option<Atom>, NoMemory> {
    match word {
        [] => Ok(None),
        [pred, args @ ..] => Ok(Some(Atom {
            pred: digit(*pred),
            args: terms(alloc, args)?,
        })),
    }
}

/// The clause of four words: its variables, its conjuncts, its body atom and its head, with the weight 1.
fn clause(alloc: Global, words: &[&[u8]; 4]) -> Result<Clause, NoMemory> {
    let mut body = List::new(alloc);
    if let Some(atom) = atom(alloc, words[2])? {
        body.push(atom)?;
    }
    Ok(Clause {
        vars: sorts(alloc, words[0])?,
        conj: terms(alloc, words[1])?,
        body,
        head: atom(alloc, words[3])?,
        weight: 1,
    })
}

/// The clauses, each of its four words.
pub(super) fn clauses(alloc: Global, all: &[[&[u8]; 4]]) -> Result<List<Clause>, NoMemory> {
    let mut clauses = List::new(alloc);
    for words in all {
        clauses.push(clause(alloc, words)?)?;
    }
    Ok(clauses)
}

/// Predicates, each of the sorts of its positions; those marked are live.
pub(super) fn preds(alloc: Global, all: &[(&[u8], bool)]) -> Result<List<PredDecl>, NoMemory> {
    let mut preds = List::new(alloc);
    for (word, live) in all {
        let sorts = sorts(alloc, word)?;
        preds.push(PredDecl { sorts, live: *live })?;
    }
    Ok(preds)
}

/// A piece of a group: `T` begins a datatype of that name, `C` a constructor of it, and `F` and `A` are a field of this one
/// with the sort named behind it and with its arrays.
pub(super) type Piece<'a> = (u8, &'a [u8], &'a [u8]);

/// The sort of that name, or its arrays.
fn written(alloc: Global, kind: u8, bytes: &[u8]) -> Result<SortSpec, NoMemory> {
    let sort = SortSpec::Named(name(alloc, bytes)?);
    if kind == b'A' {
        let index = Boxed::new(alloc, SortSpec::Named(name(alloc, b"Int")?))?;
        return Ok(SortSpec::Array(index, Boxed::new(alloc, sort)?));
    }
    Ok(sort)
}

/// Begins a datatype.
fn add_data(alloc: Global, group: &mut List<DataSpec>, bytes: &[u8]) -> Result<(), NoMemory> {
    let name = name(alloc, bytes)?;
    let ctors = List::new(alloc);
    group.push(DataSpec { name, ctors })?;
    Ok(())
}

/// Begins a constructor.
fn add_ctor(alloc: Global, ctors: &mut List<CtorSpec>, bytes: &[u8]) -> Result<(), NoMemory> {
    let name = name(alloc, bytes)?;
    let fields = List::new(alloc);
    ctors.push(CtorSpec { name, fields })?;
    Ok(())
}

/// Adds a field to the last constructor.
fn add_field(ctors: &mut List<CtorSpec>, field: FieldSpec) -> Result<(), NoMemory> {
    if let Some(mut ctor) = ctors.pop() {
        ctor.fields.push(field)?;
        ctors.push(ctor)?;
    }
    Ok(())
}

/// Adds a constructor or a field.
fn add_part(alloc: Global, ctors: &mut List<CtorSpec>, piece: Piece<'_>) -> Result<(), NoMemory> {
    let (kind, bytes, sort) = piece;
    if kind == b'C' {
        return add_ctor(alloc, ctors, bytes);
    }
    let name = name(alloc, bytes)?;
    let sort = written(alloc, kind, sort)?;
    add_field(ctors, FieldSpec { name, sort })
}

/// Adds a piece.
fn add_piece(alloc: Global, group: &mut List<DataSpec>, piece: Piece<'_>) -> Result<(), NoMemory> {
    if piece.0 == b'T' {
        return add_data(alloc, group, piece.1);
    }
    if let Some(mut data) = group.pop() {
        add_part(alloc, &mut data.ctors, piece)?;
        group.push(data)?;
    }
    Ok(())
}

/// The group of those pieces.
pub(super) fn group(alloc: Global, pieces: &[Piece<'_>]) -> Result<List<DataSpec>, NoMemory> {
    let mut group = List::new(alloc);
    for piece in pieces {
        add_piece(alloc, &mut group, *piece)?;
    }
    Ok(group)
}
