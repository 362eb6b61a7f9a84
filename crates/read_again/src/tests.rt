//! Scripts whose texts are read again as their own clauses.

use crate::read_again;
use chc_script::{Script, read_script};
use chc_sorts::{NoMemory, same_sorts};
use chc_source::ByteText;
use chc_state::{Atom, Clause};
use chc_terms::{Term, alike};
use std::alloc::Global;

/// Whether the terms are the same, in order.
fn are_same_terms(left: &[Term], right: &[Term]) -> bool {
    if left.len() != right.len() {
        return false;
    }
    left.iter().zip(right).all(|(a, b)| alike(a, b))
}

fn is_same_atom(left: &Atom, right: &Atom) -> bool {
    left.pred == right.pred && are_same_terms(left.args.as_slice(), right.args.as_slice())
}

/// Whether the atoms are the same, in order.
fn are_same_atoms(left: &[Atom], right: &[Atom]) -> bool {
    if left.len() != right.len() {
        return false;
    }
    left.iter().zip(right).all(|(a, b)| is_same_atom(a, b))
}

fn is_same_head(left: &Option<Atom>, right: &Option<Atom>) -> bool {
    match (left, right) {
        (Some(a), Some(b)) => is_same_atom(a, b),
        (None, None) => true,
        (Some(_), None) | (None, Some(_)) => false,
    }
}

fn is_same_clause(left: &Clause, right: &Clause) -> bool {
    same_sorts(left.vars.as_slice(), right.vars.as_slice())
        && are_same_terms(left.conj.as_slice(), right.conj.as_slice())
        && are_same_atoms(left.body.as_slice(), right.body.as_slice())
        && is_same_head(&left.head, &right.head)
        && left.weight == right.weight
}

/// Whether the scripts have the same clauses, in order.
fn have_same_clauses(left: &Script, right: &Script) -> bool {
    let left = left.state.clauses().as_slice();
    let right = right.state.clauses().as_slice();
    if left.len() != right.len() {
        return false;
    }
    left.iter().zip(right).all(|(a, b)| is_same_clause(a, b))
}

/// The text of a script around these commands.
fn text_around(alloc: Global, commands: &[u8]) -> Result<ByteText, NoMemory> {
    let mut text = ByteText::new(alloc);
    text.extend(b"(set-logic HORN)")?;
    text.extend(commands)?;
    text.extend(b"(check-sat)")?;
    Ok(text)
}

/// The script of these commands, or `None` where it is refused.
fn script_of(alloc: Global, commands: &[u8]) -> Option<Script> {
    let text = text_around(alloc, commands).ok()?;
    if text.len() > 65_536 {
        return None;
    }
    read_script(alloc, text.bytes()).ok()
}

/// How many clauses the script of these commands has, where its text is read again as the same clauses.
fn read_twice(alloc: Global, commands: &[u8]) -> Option<usize> {
    let script = script_of(alloc, commands)?;
    let again = read_again(alloc, &script).ok()?;
    if have_same_clauses(&script, &again) {
        Some(again.state.clauses().len())
    } else {
        None
    }
}

#[test]
fn a_pair_of_an_enumeration_and_a_number(rt: HostRuntime) {
    let commands = b"(declare-datatypes ((Color 0)) (((red) (green) (blue))))
        (declare-datatypes ((Pair 0)) (((mk (fst Color) (snd Int)))))
        (declare-fun p (Pair) Bool)
        (assert (p (mk green 0)))
        (assert (forall ((v Pair)) (=> (p v) (p (mk (ite (= (fst v) red) green red) (+ (snd v) 1))))))
        (assert (forall ((v Pair)) (=> (and (p v) (= (fst v) blue)) false)))";
    assert!(rt; read_twice(rt.alloc(), commands) == Some(3));
}

#[test]
fn an_array_that_is_read_where_it_was_written(rt: HostRuntime) {
    let commands = b"(assert (forall ((a (Array Int Int)) (v Int) (w Int) (i Int))
        (=> (< (select (store (store a 3 v) 4 w) i) 0) false)))";
    assert!(rt; read_twice(rt.alloc(), commands) == Some(1));
}

#[test]
fn a_field_of_another_constructor(rt: HostRuntime) {
    let commands = b"(declare-datatypes ((L 0)) (((nil) (cons (hd Int) (tl L)))))
        (declare-fun p (Int) Bool)
        (assert (forall ((x Int)) (=> (= x (hd nil)) (p x))))
        (assert (forall ((x Int)) (=> (and (p x) (= x 5)) false)))";
    assert!(rt; read_twice(rt.alloc(), commands) == Some(2));
}

#[test]
fn names_that_are_bound_at_once(rt: HostRuntime) {
    let commands = b"(declare-fun p (Int) Bool)
        (assert (forall ((x Int)) (=> (< 5 x) (p x))))
        (assert (forall ((x Int) (y Int)) (=> (and (p x) (let ((x y) (y x)) (< x y))) (p y))))
        (assert (forall ((x Int)) (=> (and (p x) (< x 0)) false)))";
    assert!(rt; read_twice(rt.alloc(), commands) == Some(3));
}

#[test]
fn quoted_names_negative_numbers_and_constant_arrays(rt: HostRuntime) {
    let commands = b"(declare-fun |a b| ((Array Int Bool) Int) Bool)
        (declare-const q Bool)
        (assert (|a b| ((as const (Array Int Bool)) true) (- 5)))
        (assert (forall ((x Int)) (or (not (|a b| ((as const (Array Int Bool)) false) x)) (distinct x 1 2) q)))
        (assert (not q))";
    assert!(rt; read_twice(rt.alloc(), commands) == Some(3));
}
