//! Trees and the terms or faults that they are read as. A row is a tree, `~`, and what is told of it.

mod setting;
mod telling;

use crate::{Scope, Symbol, Symbols, elab, sort_spec, trees_in};
use chc_sexpr::{TextErr, Tree};
use chc_sorts::{List, NoMemory};
use chc_source::ByteText;
use chc_terms::{Term, depth, size};
use setting::{declare, trees_of, usual_setting};
use std::alloc::Global;
use std::test::Fail;
use telling::{sort_told, term_told};

/// The two sides of a row, without the spaces around the `~`.
fn sides(row: &[u8]) -> Option<(&[u8], &[u8])> {
    for at in 0..row.len() {
        if row[at] == b'~' {
            return match &row[at..] {
                [_, _, told @ ..] => Some((&row[..at], told)),
                [] | [_] => None,
            };
        }
    }
    None
}

/// What a tree of few trees is read as in a scope of few variables.
fn reading(alloc: Global, tree: &Tree, scope: &Scope<'_>) -> Option<Result<Term, TextErr>> {
    let even = scope.names.len() == scope.sorts.len();
    if even && scope.names.len() < 1_000 && trees_in(tree) < 1_000_000 {
        Some(elab(alloc, tree, scope))
    } else {
        None
    }
}

/// What the first tree of a text is read as, in the usual scope.
fn text_reading(alloc: Global, text: &[u8]) -> Result<Option<Result<Term, TextErr>>, TextErr> {
    let setting = usual_setting(alloc)?;
    let trees = trees_of(alloc, text)?;
    match trees.as_slice() {
        [tree] => Ok(reading(alloc, tree, &setting.scope())),
        [] | [_, _, ..] => Ok(None),
    }
}

/// Whether a text is read as is told.
fn is_read_as(alloc: Global, text: &[u8], told: &[u8]) -> Result<bool, TextErr> {
    match text_reading(alloc, text)? {
        Some(read) => Ok(term_told(alloc, &read)?.bytes() == told),
        None => Ok(false),
    }
}

/// Whether the text on a row's one side is read as its other side tells.
fn is_read(alloc: Global, row: &[u8]) -> Result<bool, TextErr> {
    match sides(row) {
        Some((text, told)) => is_read_as(alloc, text, told),
        None => Ok(false),
    }
}

/// The place of the first row that isn't read as it tells.
fn first_misread(alloc: Global, rows: &[&[u8]]) -> Result<Option<usize>, TextErr> {
    for (i, row) in rows.iter().enumerate() {
        if !is_read(alloc, row)? {
            return Ok(Some(i));
        }
    }
    Ok(None)
}

#[test]
fn operators_stand_for_their_terms(rt: HostRuntime) -> Result<(), Fail> {
    let rows = [
        b"(=> y true y) ~ (Or (Not v1) (Not true) v1)".as_slice(),
        b"(and (and y) true false) ~ (And v1 true false)",
        b"(or y (or false)) ~ (Or v1 false)",
        b"(ite y x 3) ~ (Ite v1 v0 3)",
        b"(- 5) ~ -5",
        b"(- x) ~ (Sub 0 v0)",
        b"(mod (abs x) 3) ~ (Mod (Ite (Lt v0 0) (Sub 0 v0) v0) 3)",
        b"((_ divisible 3) x) ~ (Eq (Mod v0 3) 0)",
    ];
    assert_eq!(rt; first_misread(rt.alloc(), &rows)?, None);
    Ok(())
}

#[test]
fn chains_and_pairs_are_spelled_out(rt: HostRuntime) -> Result<(), Fail> {
    let rows = [
        b"(>= x 1) ~ (Le 1 v0)".as_slice(),
        b"(> 3 x 1) ~ (And (Lt v0 3) (Lt 1 v0))",
        b"(<= x 1 2) ~ (And (Le v0 1) (Le 1 2))",
        b"(= x 1 2) ~ (And (Eq v0 1) (Eq 1 2))",
        b"(distinct x 1 2) ~ (And (Not (Eq v0 1)) (Not (Eq v0 2)) (Not (Eq 1 2)))",
        b"(xor y true y) ~ (Not (Eq (Not (Eq v1 true)) v1))",
        b"(- x (+ 1 2 3) 4) ~ (Sub (Sub v0 (Add (Add 1 2) 3)) 4)",
        b"(div x (* 2 3 (+ 4)) 5) ~ (Div (Div v0 (Mul (Mul 2 3) 4)) 5)",
    ];
    assert_eq!(rt; first_misread(rt.alloc(), &rows)?, None);
    Ok(())
}

#[test]
fn bound_names_stand_for_what_is_bound(rt: HostRuntime) -> Result<(), Fail> {
    let rows = [
        b"(let ((x 2)) (+ x x)) ~ (Add 2 2)".as_slice(),
        b"(let ((x 2) (z x)) (+ x z)) ~ (Add 2 v0)",
        b"(let ((z x)) (forall ((x Int)) (= x z))) ~ (Forall 1 (Eq v4 v0))",
        b"(let ((b (exists ((k Int)) (= k x)))) (forall ((m Int)) (and b (= m x)))) ~ (Forall 1 (And (Exists 1 (Eq v5 v0)) (Eq v4 v0)))",
        b"(exists ((k Int)) (< k x)) ~ (Exists 1 (Lt v4 v0))",
        b"(forall () y) ~ v1",
        b"(let () (! y :named foo)) ~ v1",
        b"(forall ((z Bool) (k Int)) (let ((true z)) (= true (< k 0)))) ~ (Forall 2 (Eq v4 (Lt v5 0)))",
    ];
    assert_eq!(rt; first_misread(rt.alloc(), &rows)?, None);
    Ok(())
}

#[test]
fn datatypes_and_arrays_are_read(rt: HostRuntime) -> Result<(), Fail> {
    let rows = [
        b"(select (store a 1 x) 2) ~ (Select (Store v2 1 v0) 2)".as_slice(),
        b"((as const (Array Int Int)) x) ~ (Const(Int) v0)",
        b"(as nil L) ~ (Make(0, 0))",
        b"((as cons L) 1 nil) ~ (Make(0, 1) 1 (Make(0, 0)))",
        b"(cons (hd l) (tl (nil))) ~ (Make(0, 1) (Get(0, 1, 0) v3) (Get(0, 1, 1) (Make(0, 0))))",
        b"((_ is cons) l) ~ (Is(0, 1) v3)",
        b"(is-nil l) ~ (Is(0, 0) v3)",
        b"(= green red) ~ (Eq (Make(1, 1)) (Make(1, 0)))",
    ];
    assert_eq!(rt; first_misread(rt.alloc(), &rows)?, None);
    Ok(())
}

#[test]
fn declared_names_are_applied(rt: HostRuntime) -> Result<(), Fail> {
    let rows = [
        b"(p x y) ~ (p0 v0 v1)".as_slice(),
        b"q ~ (p1)",
        b"(and (q) |q|) ~ (And (p1) (p1))",
        b"(f (f x)) ~ (d0 (d0 v0))",
        b"c ~ (d1)",
        b"(let ((p 1)) (p p (c))) ~ (p0 1 (d1))",
        b"(let ((q x) (x 1)) (- q x)) ~ (Sub v0 1)",
        b"(and (forall ((x Bool) (x2 L)) (= x y)) (< x 1)) ~ (And (Forall 2 (Eq v4 v1)) (Lt v0 1))",
    ];
    assert_eq!(rt; first_misread(rt.alloc(), &rows)?, None);
    Ok(())
}

#[test]
fn faults_of_heads(rt: HostRuntime) -> Result<(), Fail> {
    let rows = [
        b"foo ~ UnknownName 0 foo".as_slice(),
        b"(and hd) ~ UnknownName 5 hd",
        b"(true) ~ UnknownName 1 true",
        b"((_ is foo) l) ~ UnknownName 7 foo",
        b"1.5 ~ NotSupported 0 1.5",
        b"(match x) ~ NotSupported 1 match",
        b"((_  is 1) l) ~ NotSupported 1 (_ is 1)",
        b"(_ is nil) ~ NotSupported 0 (_ is nil)",
    ];
    assert_eq!(rt; first_misread(rt.alloc(), &rows)?, None);
    Ok(())
}

#[test]
fn faults_of_forms(rt: HostRuntime) -> Result<(), Fail> {
    let rows = [
        b"() ~ BadCommand 0 ".as_slice(),
        b"(not :named) ~ BadCommand 5 ",
        b"(let ((z 1) (z 2)) z) ~ NameTaken 13 z",
        b"(let ((z 1) (k)) z) ~ BadCommand 0 ",
        b"(exists ((z 1)) y) ~ BadCommand 12 ",
        b"(forall ((z K)) y) ~ UnknownSort 12 K",
        b"(forall ((z (Array Bool Int))) y) ~ ArrayIndex 12 ",
        b"((as nil (Array Int K)) 1) ~ UnknownSort 9 K",
    ];
    assert_eq!(rt; first_misread(rt.alloc(), &rows)?, None);
    Ok(())
}

#[test]
fn faults_of_counts_sorts_and_names(rt: HostRuntime) -> Result<(), Fail> {
    let rows = [
        b"(not (foo) y) ~ WrongCount 0 ".as_slice(),
        b"(as cons L) ~ WrongCount 0 ",
        b"(+ x y foo) ~ UnknownName 7 foo",
        b"(= 1 true) ~ WrongSort 0 ",
        b"(forall ((z Int)) z) ~ WrongSort 0 ",
        b"((as cons C) 1 nil) ~ WrongSort 0 ",
        b"(or y (p y x)) ~ WrongSort 6 ",
        b"(p (f) foo) ~ WrongCount 3 ",
    ];
    assert_eq!(rt; first_misread(rt.alloc(), &rows)?, None);
    Ok(())
}

/// Adds what stands in front so many times, what stands within, and `)` so many times.
fn nest(out: &mut ByteText, front: &[u8], count: usize, within: &[u8]) -> Result<(), NoMemory> {
    for _ in 0..count {
        out.extend(front)?;
    }
    out.extend(within)?;
    for _ in 0..count {
        out.push(b')')?;
    }
    Ok(())
}

/// A `let` of twice `x`, and in it as many more as the count, each of twice the one around it.
fn doubled(alloc: Global, count: usize, within: &[u8]) -> Result<ByteText, NoMemory> {
    let mut text = ByteText::new(alloc);
    text.extend(b"(let ((a (+ x x))) ")?;
    nest(&mut text, b"(let ((a (+ a a))) ", count, within)?;
    text.push(b')')?;
    Ok(text)
}

/// Whether the text of those lets is read as is told.
fn is_doubled_read_as(alloc: Global, count: usize, told: &[u8]) -> Result<bool, TextErr> {
    let text = doubled(alloc, count, b"(< a 0)")?;
    is_read_as(alloc, text.bytes(), told)
}

#[test]
fn eighteen_lets_are_too_large(rt: HostRuntime) -> Result<(), Fail> {
    assert!(rt; is_doubled_read_as(rt.alloc(), 17, b"TooLarge 332 ")?);
    Ok(())
}

/// The size of the term that a text is read as.
fn size_of(alloc: Global, text: &[u8]) -> Result<Option<u64>, TextErr> {
    match text_reading(alloc, text)? {
        Some(Ok(term)) => Ok(Some(size(&term))),
        Some(Err(_)) | None => Ok(None),
    }
}

/// The size of the term of those lets.
fn doubled_size(alloc: Global, count: usize) -> Result<Option<u64>, TextErr> {
    let text = doubled(alloc, count, b"a")?;
    size_of(alloc, text.bytes())
}

#[test]
fn seventeen_lets_are_read(rt: HostRuntime) -> Result<(), Fail> {
    assert_eq!(rt; doubled_size(rt.alloc(), 16)?, Some(262_143));
    Ok(())
}

/// `y`, negated so many times.
fn negated(alloc: Global, count: usize) -> Result<ByteText, NoMemory> {
    let mut text = ByteText::new(alloc);
    nest(&mut text, b"(not ", count, b"y")?;
    Ok(text)
}

/// The depth of the term that a text is read as.
fn depth_of(alloc: Global, text: &[u8]) -> Result<Option<u64>, TextErr> {
    match text_reading(alloc, text)? {
        Some(Ok(term)) => Ok(Some(depth(&term))),
        Some(Err(_)) | None => Ok(None),
    }
}

/// The depth of the term of `y`, negated so many times.
fn negated_depth(alloc: Global, count: usize) -> Result<Option<u64>, TextErr> {
    let text = negated(alloc, count)?;
    depth_of(alloc, text.bytes())
}

/// Whether `y`, negated so many times, is read as is told.
fn is_negated_read_as(alloc: Global, count: usize, told: &[u8]) -> Result<bool, TextErr> {
    let text = negated(alloc, count)?;
    is_read_as(alloc, text.bytes(), told)
}

#[test]
fn nine_hundred_levels_are_read(rt: HostRuntime) -> Result<(), Fail> {
    assert_eq!(rt; negated_depth(rt.alloc(), 899)?, Some(900));
    assert!(rt; is_negated_read_as(rt.alloc(), 900, b"TooDeep 0 ")?);
    Ok(())
}

/// `y` under a variable of arrays, so many of them within one another.
fn under_arrays(alloc: Global, count: usize) -> Result<ByteText, NoMemory> {
    let mut text = ByteText::new(alloc);
    text.extend(b"(forall ((z ")?;
    nest(&mut text, b"(Array Int ", count, b"Int")?;
    text.extend(b")) y)")?;
    Ok(text)
}

/// Whether `y` under a variable of so many arrays is read as is told.
fn is_read_under_arrays(alloc: Global, count: usize, told: &[u8]) -> Result<bool, TextErr> {
    let text = under_arrays(alloc, count)?;
    is_read_as(alloc, text.bytes(), told)
}

#[test]
fn sorts_of_sixteen_levels_are_read(rt: HostRuntime) -> Result<(), Fail> {
    assert!(rt; is_read_under_arrays(rt.alloc(), 15, b"(Forall 1 v1)")?);
    assert!(rt; is_read_under_arrays(rt.alloc(), 16, b"SortTooDeep 12 ")?);
    Ok(())
}

/// Whether the sort that a text spells is as is told.
fn is_spelled_as(alloc: Global, text: &[u8], told: &[u8]) -> Result<bool, TextErr> {
    let trees = trees_of(alloc, text)?;
    match trees.as_slice() {
        [tree] => Ok(sort_told(alloc, &sort_spec(alloc, tree))?.bytes() == told),
        [] | [_, _, ..] => Ok(false),
    }
}

/// Whether the sort on a row's one side is spelled as its other side tells.
fn is_spelled(alloc: Global, row: &[u8]) -> Result<bool, TextErr> {
    match sides(row) {
        Some((text, told)) => is_spelled_as(alloc, text, told),
        None => Ok(false),
    }
}

#[test]
fn sorts_are_spelled(rt: HostRuntime) -> Result<(), Fail> {
    let rows = [
        b"Int ~ Int".as_slice(),
        b"(Array Int (Array K |L|)) ~ (Array Int (Array K L))",
        b"1 ~ BadCommand 0 ",
        b"(Array Int) ~ BadCommand 0 ",
        b"(Array Int (L)) ~ BadCommand 11 ",
    ];
    for (i, row) in rows.iter().enumerate() {
        assert!(rt; is_spelled(rt.alloc(), row)?, "{i}");
    }
    Ok(())
}

/// Whether the name stands for a predicate of that number, without positions.
fn is_predicate(symbols: &Symbols, name: &[u8], wanted: u32) -> bool {
    match symbols.find(name) {
        Some(Symbol::Pred(number, sorts)) => *number == wanted && sorts.len() == 0,
        Some(Symbol::Def(_, _)) | None => false,
    }
}

/// Whether the name stands for nothing.
fn is_free(symbols: &Symbols, name: &[u8]) -> bool {
    symbols.find(name).is_none()
}

#[test]
fn a_symbol_is_found_by_its_name(rt: HostRuntime) -> Result<(), Fail> {
    let mut symbols = Symbols::new(rt.alloc());
    declare(
        rt.alloc(),
        &mut symbols,
        b"p",
        Symbol::Pred(7, List::new(rt.alloc())),
    )?;
    assert!(rt; is_predicate(&symbols, b"p", 7));
    assert!(rt; is_free(&symbols, b"pp"));
    Ok(())
}
