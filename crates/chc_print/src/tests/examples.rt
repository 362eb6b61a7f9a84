//! The scripts of states that normal forms of scripts are, and the names of helpers.

use super::words::{clauses, names, preds};
use super::{signature, state_of};
use crate::{helper_names, script_text};
use chc_sorts::{List, Sig};
use chc_source::ByteText;
use chc_state::State;
use std::alloc::Global;

/// The state of an enumeration of three colours whose values are numbers, none of whose datatypes is used: the first of them
/// is 1; behind 0 comes 1, and else 0; and 2 is never reached.
fn enumeration(alloc: Global) -> Option<State> {
    let colours = [
        (b'T', b"Color".as_slice(), b"".as_slice()),
        (b'C', b"red", b""),
        (b'C', b"green", b""),
        (b'C', b"blue", b""),
    ];
    let sig = signature(alloc, &[&colours]).ok()?;
    let preds = preds(alloc, &[(b"I", true)]).ok()?;
    let clauses = clauses(
        alloc,
        &[
            [b"I", b"a1=", b"", b"0a"],
            [b"II", b"0aLa2Lba0=10?=", b"0a", b"0b"],
            [b"I", b"a2=", b"0a", b""],
        ],
    )
    .ok()?;
    state_of(alloc, sig, preds, clauses)
}

/// The state of the query alone that an array with two stores has a number below 0.
fn arrays(alloc: Global) -> Option<State> {
    let clauses = clauses(alloc, &[[b"AIII", b"4d=c3d=bad@??0<", b"", b""]]).ok()?;
    state_of(alloc, Sig::new(alloc), List::new(alloc), clauses)
}

/// The state of the query that the head of the list `nil` is 5, beside a predicate that isn't live.
fn open_value(alloc: Global) -> Option<State> {
    let lists = [
        (b'T', b"L".as_slice(), b"".as_slice()),
        (b'C', b"nil", b""),
        (b'C', b"cons", b""),
        (b'F', b"hd", b"Int"),
        (b'F', b"tl", b"L"),
    ];
    let sig = signature(alloc, &[&lists]).ok()?;
    let preds = preds(alloc, &[(b"I", false)]).ok()?;
    let clauses = clauses(alloc, &[[b"", b"5NH=", b"", b""]]).ok()?;
    state_of(alloc, sig, preds, clauses)
}

/// The state in which from a number below 7 follows the predicate of that digit, the only one that is live of these; and
/// the query on it.
fn goal(alloc: Global, pred: &[u8], all: &[(&[u8], bool)]) -> Option<State> {
    let preds = preds(alloc, all).ok()?;
    let clauses = clauses(alloc, &[[b"I", b"a7<", b"", pred], [b"", b"", pred, b""]]).ok()?;
    state_of(alloc, Sig::new(alloc), preds, clauses)
}

/// The text of the state's script, where its first predicates have these names.
fn script(alloc: Global, state: Option<State>, all: &[&[u8]]) -> Option<ByteText> {
    let names = names(alloc, all).ok()?;
    script_text(alloc, &state?, &names).ok()
}

#[test]
fn an_enumeration_as_numbers(rt: HostRuntime) {
    let wanted =
        b"(set-logic HORN)\n(declare-fun p (Int) Bool)\n(assert (forall ((x0 Int)) (=> (= x0 1) (p x0))))\n(assert (forall ((x0 Int) (x1 Int)) (=> (and (p x0) (<= 0 x0) (<= x0 2) (= x1 (ite (= x0 0) 1 0))) (p x1))))\n(assert (forall ((x0 Int)) (=> (and (p x0) (= x0 2)) false)))\n(check-sat)\n";
    match script(rt.alloc(), enumeration(rt.alloc()), &[b"p"]) {
        Some(text) => assert!(rt; text.bytes() == wanted.as_slice()),
        None => assert!(rt; false),
    }
}

#[test]
fn a_read_over_two_writes(rt: HostRuntime) {
    let wanted =
        b"(set-logic HORN)\n(assert (forall ((x0 (Array Int Int)) (x1 Int) (x2 Int) (x3 Int)) (=> (< (ite (= 4 x3) x2 (ite (= 3 x3) x1 (select x0 x3))) 0) false)))\n(check-sat)\n";
    match script(rt.alloc(), arrays(rt.alloc()), &[]) {
        Some(text) => assert!(rt; text.bytes() == wanted.as_slice()),
        None => assert!(rt; false),
    }
}

#[test]
fn an_open_value(rt: HostRuntime) {
    let wanted =
        b"(set-logic HORN)\n(declare-datatypes ((L 0)) (((nil) (cons (hd Int) (tl L)))))\n(assert (=> (= 5 (hd nil)) false))\n(check-sat)\n";
    match script(rt.alloc(), open_value(rt.alloc()), &[b"p"]) {
        Some(text) => assert!(rt; text.bytes() == wanted.as_slice()),
        None => assert!(rt; false),
    }
}

#[test]
fn a_helper_beside_a_declared_name(rt: HostRuntime) {
    let first =
        b"(set-logic HORN)\n(declare-fun goal!0 () Bool)\n(assert (forall ((x0 Int)) (=> (< x0 7) goal!0)))\n(assert (=> goal!0 false))\n(check-sat)\n";
    let second =
        b"(set-logic HORN)\n(declare-fun goal!1 () Bool)\n(assert (forall ((x0 Int)) (=> (< x0 7) goal!1)))\n(assert (=> goal!1 false))\n(check-sat)\n";
    match script(rt.alloc(), goal(rt.alloc(), b"0", &[(b"", true)]), &[]) {
        Some(text) => assert!(rt; text.bytes() == first.as_slice()),
        None => assert!(rt; false),
    }
    match script(
        rt.alloc(),
        goal(rt.alloc(), b"1", &[(b"", false), (b"", true)]),
        &[b"goal!0"],
    ) {
        Some(text) => assert!(rt; text.bytes() == second.as_slice()),
        None => assert!(rt; false),
    }
}

/// Three helpers beside these names, of which two have numbers.
fn three_helpers(alloc: Global) -> Option<List<List<u8>>> {
    let used = names(alloc, &[b"lift!1", b"lift!03", b"lift!", b"lift!2"]).ok()?;
    helper_names(alloc, used.as_slice(), b"lift!", 3).ok()
}

#[test]
fn numbers_that_are_left(rt: HostRuntime) {
    let wanted: [&[u8]; 3] = [b"lift!0", b"lift!3", b"lift!4"];
    match three_helpers(rt.alloc()) {
        Some(helpers) => {
            assert_eq!(rt; helpers.len(), 3);
            for (name, wanted) in helpers.as_slice().iter().zip(wanted) {
                assert!(rt; name.as_slice() == wanted);
            }
        }
        None => assert!(rt; false),
    }
}
