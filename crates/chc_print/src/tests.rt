//! Texts of names, prefixes, clauses, scripts, terms and values, and how far operators reach.

mod examples;
mod words;

use crate::naming::Naming;
use crate::prefix::prefix_beside;
use crate::reach::op_reach;
use crate::script::{write_clauses, write_declarations};
use crate::{script_text, term_text, value_text};
use chc_sorts::{Boxed, List, NoMemory, Op, Sig, SigErr, Sort};
use chc_source::ByteText;
use chc_state::{Clause, PredDecl, State, positions_fit};
use chc_terms::{Kind, Term};
use chc_values::{Entries, Value};
use std::alloc::Global;
use std::test::Fail;
use words::{Piece, clauses, group, names, preds, sorts, terms};

/// Three clauses: from `x0 <= -5` follows the atom on x0; from the atom on x0 and `x1 = x0 + 1` that on x1; and a query
/// without variables, body or conjuncts.
fn three_clauses(alloc: Global) -> Result<List<Clause>, NoMemory> {
    clauses(
        alloc,
        &[
            [b"I", b"amL", b"", b"0a"],
            [b"II", b"ba1+=", b"0a", b"0b"],
            [b"", b"", b"", b""],
        ],
    )
}

/// The lines of predicates over one Int, of which the second isn't live, and of the three clauses.
fn lines(alloc: Global) -> Result<ByteText, NoMemory> {
    let sig = Sig::new(alloc);
    let called = names(alloc, &[b"inv", b"dead", b"let"])?;
    let calls = List::new(alloc);
    let naming = Naming {
        sig: &sig,
        preds: &called,
        calls: &calls,
        prefix: b"x",
    };
    let mut out = ByteText::new(alloc);
    let declared = preds(alloc, &[(b"I", true), (b"I", false), (b"I", true)])?;
    write_declarations(&mut out, &naming, declared.as_slice())?;
    write_clauses(&mut out, &naming, three_clauses(alloc)?.as_slice())?;
    Ok(out)
}

#[test]
fn lines_of_declarations_and_clauses(rt: HostRuntime) {
    let wanted =
        b"(declare-fun inv (Int) Bool)\n(declare-fun |let| (Int) Bool)\n(assert (forall ((x0 Int)) (=> (<= x0 (- 5)) (inv x0))))\n(assert (forall ((x0 Int) (x1 Int)) (=> (and (inv x0) (= x1 (+ x0 1))) (inv x1))))\n(assert false)\n";
    match lines(rt.alloc()) {
        Ok(text) => assert!(rt; text.bytes() == wanted.as_slice()),
        Err(_) => assert!(rt; false),
    }
}

#[test]
fn the_script_without_clauses(rt: HostRuntime) {
    let alloc = rt.alloc();
    let state = State::of_parts(Sig::new(alloc), List::new(alloc), List::new(alloc));
    match script_text(alloc, &state, &List::new(alloc)) {
        Ok(text) => { assert!(rt; text.bytes() == b"(set-logic HORN)\n(check-sat)\n".as_slice()) }
        Err(_) => assert!(rt; false),
    }
}

/// The prefix beside these names.
fn prefix(alloc: Global, all: &[&[u8]]) -> Result<ByteText, NoMemory> {
    prefix_beside(alloc, names(alloc, all)?.as_slice())
}

#[test]
fn prefixes_beside_names(rt: HostRuntime) {
    let cases: [(&[&[u8]], &[u8]); 4] = [
        (&[b"inv", b"x", b"y0"], b"x"),
        (&[b"x!1", b"xx0"], b"x"),
        (&[b"x0", b"x!!2"], b"x!"),
        (&[b"x!7y", b"x12"], b"x!!"),
    ];
    for (all, wanted) in cases {
        match prefix(rt.alloc(), all) {
            Ok(text) => assert!(rt; text.bytes() == wanted),
            Err(_) => assert!(rt; false),
        }
    }
}

/// Lists and the datatype `a b`, whose fields are of each other; and behind them a datatype whose constructor begins like
/// a variable's name.
const GROUPS: [&[Piece<'static>]; 2] = [
    &[
        (b'T', b"list", b""),
        (b'C', b"nil", b""),
        (b'C', b"cons", b""),
        (b'F', b"head", b"a b"),
        (b'F', b"tail", b"list"),
        (b'T', b"a b", b""),
        (b'C', b"get-value", b""),
        (b'A', b"let", b"list"),
    ],
    &[(b'T', b"last", b""), (b'C', b"x0", b"")],
];

/// The signature of those groups.
fn signature(alloc: Global, groups: &[&[Piece<'_>]]) -> Result<Sig, SigErr> {
    let mut sig = Sig::new(alloc);
    for pieces in groups {
        let group = group(alloc, pieces)?;
        sig.add_group(alloc, group.as_slice(), &List::new(alloc))?;
    }
    Ok(sig)
}

/// The state of these parts, if it is one and memory isn't refused.
fn state_of(
    alloc: Global,
    sig: Sig,
    preds: List<PredDecl>,
    clauses: List<Clause>,
) -> Option<State> {
    let few = preds.len() < 1_000 && clauses.len() < 1_000;
    if few && positions_fit(&sig, &preds) {
        State::make(alloc, sig, preds, clauses).ok()
    } else {
        None
    }
}

/// The state without clauses of a live predicate on `a b`, and one on the last datatype that isn't live.
fn state(alloc: Global) -> Option<State> {
    let sig = signature(alloc, &GROUPS).ok()?;
    let preds = preds(alloc, &[(b"1", true), (b"2", false)]).ok()?;
    state_of(alloc, sig, preds, List::new(alloc))
}

/// The text of the state's script.
fn script(alloc: Global) -> Option<ByteText> {
    let state = state(alloc)?;
    let names = names(alloc, &[b"p", b"dead"]).ok()?;
    script_text(alloc, &state, &names).ok()
}

#[test]
fn the_last_group_is_unused(rt: HostRuntime) {
    let wanted =
        b"(set-logic HORN)\n(declare-datatypes ((list 0) (|a b| 0)) (((nil) (cons (head |a b|) (tail list))) ((|get-value| (|let| (Array Int list))))))\n(declare-fun p (|a b|) Bool)\n(check-sat)\n";
    match script(rt.alloc()) {
        Some(text) => assert!(rt; text.bytes() == wanted.as_slice()),
        None => assert!(rt; false),
    }
}

/// There is a list for which a definition calls it and the variable 0.
fn called(alloc: Global) -> Result<Term, NoMemory> {
    let body = Boxed::new(alloc, Term::Call(0, terms(alloc, b"ba")?))?;
    Ok(Term::Quant(Kind::Exists, sorts(alloc, b"0")?, body))
}

/// The text of that term under one variable.
fn call(alloc: Global) -> Option<ByteText> {
    let state = state(alloc)?;
    let preds = names(alloc, &[b"p", b"dead"]).ok()?;
    let calls = names(alloc, &[b"a b"]).ok()?;
    let term = called(alloc).ok()?;
    term_text(alloc, &term, 1, &calls, &state, &preds).ok()
}

#[test]
fn a_term_beside_unused_datatypes(rt: HostRuntime) {
    let wanted = b"(exists ((x!1 list)) (|a b| x!1 x!0))";
    match call(rt.alloc()) {
        Some(text) => assert!(rt; text.bytes() == wanted.as_slice()),
        None => assert!(rt; false),
    }
}

/// A value of a datatype.
fn made(alloc: Global, d: u32, c: u32) -> Value {
    Value::Data(d, c, List::new(alloc))
}

/// The array of a default with two exceptions.
fn array(alloc: Global, default: Value, first: Value, second: Value) -> Result<Value, NoMemory> {
    let mut exceptions: Entries = List::new(alloc);
    exceptions.push((-1, first))?;
    exceptions.push((2, second))?;
    Ok(Value::Array(Boxed::new(alloc, default)?, exceptions))
}

/// The array of that default.
fn constant(alloc: Global, default: Value) -> Result<Value, NoMemory> {
    Ok(Value::Array(Boxed::new(alloc, default)?, List::new(alloc)))
}

/// A list of one element.
fn cons(alloc: Global) -> Result<Value, NoMemory> {
    let mut field = List::new(alloc);
    field.push(constant(alloc, made(alloc, 0, 0))?)?;
    let mut fields = List::new(alloc);
    fields.push(Value::Data(1, 0, field))?;
    fields.push(made(alloc, 0, 0))?;
    Ok(Value::Data(0, 1, fields))
}

/// Five values.
fn value(alloc: Global, i: usize) -> Result<Value, NoMemory> {
    match i {
        0 => Ok(Value::Int(-7)),
        1 => Ok(Value::Bool(true)),
        2 => cons(alloc),
        3 => array(alloc, Value::Int(0), Value::Int(5), Value::Int(7)),
        _ => constant(alloc, constant(alloc, made(alloc, 0, 0))?),
    }
}

/// The text of such a value.
fn value_in_two_groups(alloc: Global, i: usize) -> Option<ByteText> {
    let sig = signature(alloc, &GROUPS).ok()?;
    let value = value(alloc, i).ok()?;
    value_text(alloc, &value, &sig).ok()
}

#[test]
fn values(rt: HostRuntime) {
    let texts: [&[u8]; 5] = [
        b"(- 7)",
        b"true",
        b"(cons (|get-value| ((as const (Array Int list)) nil)) nil)",
        b"(store (store ((as const (Array Int Int)) 0) (- 1) 5) 2 7)",
        b"((as const (Array Int (Array Int list))) ((as const (Array Int list)) nil))",
    ];
    for (i, wanted) in texts.into_iter().enumerate() {
        match value_in_two_groups(rt.alloc(), i) {
            Some(text) => assert!(rt; text.bytes() == wanted, "at {i}"),
            None => assert!(rt; false, "at {i}"),
        }
    }
}

#[test]
fn operators_reach_their_datatypes(rt: HostRuntime) -> Result<(), Fail> {
    let element = Sort::Array(Boxed::new(rt.alloc(), Sort::Data(4))?);
    assert_eq!(rt; op_reach(&Op::Const(element)), 5);
    assert_eq!(rt; op_reach(&Op::Make(3, 0)), 4);
    assert_eq!(rt; op_reach(&Op::Get(2, 0, 1)), 3);
    assert_eq!(rt; op_reach(&Op::Is(0, 1)), 1);
    assert_eq!(rt; op_reach(&Op::Store), 0);
    Ok(())
}
