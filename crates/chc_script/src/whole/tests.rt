//! First faults of scripts, and scripts that are read.

use crate::script::Script;
use crate::shown::show_clauses;
use crate::whole::script::read_script;
use chc_sexpr::{TextErr, TextFault};
use chc_sorts::NoMemory;
use chc_source::ByteText;
use std::alloc::Global;

/// The reading of a text, of which tests know no more than what it answers.
fn read(alloc: Global, text: &[u8]) -> Result<Script, TextErr> {
    if text.len() > 4_294_967_295 {
        return Err(TextErr::NoMemory);
    }
    read_script(alloc, text)
}

/// Adds the numbers of predicates and clauses of a script.
fn tell_numbers(alloc: Global, out: &mut ByteText, script: &Script) -> Result<(), NoMemory> {
    let preds = script.state.preds().len();
    let clauses = script.state.clauses().len();
    out.extend(format!(in alloc; "{preds} predicates, {clauses} clauses")?.as_bytes())
}

/// Adds a fault: its place, what it is, and its name.
fn tell_fault(alloc: Global, out: &mut ByteText, fault: &TextFault) -> Result<(), NoMemory> {
    let place = fault.place;
    out.extend(format!(in alloc; "{place} ")?.as_bytes())?;
    out.extend(fault.fault.name())?;
    out.push(b' ')?;
    out.extend(fault.name.bytes())
}

/// Adds what the reading of a text answers: its numbers of predicates and clauses, or its fault with place and name.
fn tell(alloc: Global, out: &mut ByteText, text: &[u8]) -> Result<(), NoMemory> {
    match read(alloc, text) {
        Ok(script) => tell_numbers(alloc, out, &script),
        Err(TextErr::At(fault)) => tell_fault(alloc, out, &fault),
        Err(TextErr::NoMemory) => Err(NoMemory),
    }
}

/// Whether the text is told so, behind these commands, or `None` where memory was refused.
fn is_told(alloc: Global, before: &[u8], text: &[u8], wanted: &[u8]) -> Option<bool> {
    let mut whole = ByteText::new(alloc);
    let mut out = ByteText::new(alloc);
    whole.extend(before).ok()?;
    whole.extend(text).ok()?;
    tell(alloc, &mut out, whole.bytes()).ok()?;
    Some(out.bytes() == wanted)
}

/// Adds a piece so many times.
fn repeat(out: &mut ByteText, piece: &[u8], count: usize) -> Result<(), NoMemory> {
    for _ in 0..count {
        out.extend(piece)?;
    }
    Ok(())
}

/// What stands around a middle: a front, so many opening pieces, and behind it as many closing pieces and an end.
#[derive(Drop)]
struct Frame<'a> {
    front: &'a [u8],
    open: &'a [u8],
    close: &'a [u8],
    end: &'a [u8],
    count: usize,
}

/// The text of a middle in a frame.
fn framed(alloc: Global, frame: &Frame<'_>, middle: &[u8]) -> Result<ByteText, NoMemory> {
    let mut text = ByteText::new(alloc);
    text.extend(frame.front)?;
    repeat(&mut text, frame.open, frame.count)?;
    text.extend(middle)?;
    repeat(&mut text, frame.close, frame.count)?;
    text.extend(frame.end)?;
    Ok(text)
}

/// The text of a frame whose pieces stand in pairs, each pair with its number between.
fn numbered(alloc: Global, frame: &Frame<'_>) -> Result<ByteText, NoMemory> {
    let mut text = ByteText::new(alloc);
    text.extend(frame.front)?;
    for number in 0..frame.count {
        text.extend(frame.open)?;
        text.extend(format!(in alloc; "{number}")?.as_bytes())?;
        text.extend(frame.close)?;
    }
    text.extend(frame.end)?;
    Ok(text)
}

/// Adds the clauses of a script, a line for each.
fn show_script(alloc: Global, out: &mut ByteText, text: &[u8]) -> Result<(), NoMemory> {
    match read(alloc, text) {
        Ok(script) => show_clauses(alloc, out, script.state.clauses().as_slice()),
        Err(TextErr::At(_)) => out.extend(b"refused"),
        Err(TextErr::NoMemory) => Err(NoMemory),
    }
}

/// Whether the clauses of a script are shown so, or `None` where memory was refused.
fn has_clauses(alloc: Global, text: &[u8], wanted: &[u8]) -> Option<bool> {
    let mut out = ByteText::new(alloc);
    show_script(alloc, &mut out, text).ok()?;
    Some(out.bytes() == wanted)
}

/// The command that stands first.
const LOGIC: &[u8] = b"(set-logic HORN)";

#[test]
fn first_faults_of_commands(rt: HostRuntime) {
    let texts = [
        b"(check-sat)".as_slice(),
        b"(set-info :a)(push 1)",
        b"(assert true)",
        b"(declare-fun p (U) Int)",
        b"(declare-datatypes ((T 1)) ((par)))",
        b"(declare-datatype and ((c)))",
        b"(set-option :a \"b\")",
        b"x",
    ];
    let wanted = [
        b"0 NoLogic ".as_slice(),
        b"13 NoLogic ",
        b"0 NoLogic ",
        b"0 NoLogic ",
        b"0 NoLogic ",
        b"0 NoLogic ",
        b"19 NoLogic ",
        b"0 BadCommand ",
    ];
    for (text, wanted) in texts.iter().zip(wanted) {
        assert!(rt; is_told(rt.alloc(), b"", text, wanted) == Some(true));
    }
}

#[test]
fn more_first_faults_of_commands(rt: HostRuntime) {
    let texts = [
        b"()".as_slice(),
        b"(let)",
        b"((set-logic) HORN)",
        b"(set-logic)",
        b"(set-logic let)",
        b"(check-sat true)",
        b"(set-logic LIA)",
        b"(set-logic |HORN|)(set-logic HORN)",
    ];
    let wanted = [
        b"0 BadCommand ".as_slice(),
        b"0 BadCommand ",
        b"0 BadCommand ",
        b"0 BadCommand ",
        b"0 BadCommand ",
        b"0 BadCommand ",
        b"0 OtherLogic LIA",
        b"18 UnknownCommand set-logic",
    ];
    for (text, wanted) in texts.iter().zip(wanted) {
        assert!(rt; is_told(rt.alloc(), b"", text, wanted) == Some(true));
    }
}

#[test]
fn still_more_first_faults_of_commands(rt: HostRuntime) {
    let texts = [
        b"(set-logic HORN)(set-logic |let|)".as_slice(),
        b"(set-logic HORN)(push 1)",
        b"(set-logic HORN)(define-fun f () Int 0)",
        b"(set-logic HORN) ",
        b"(set-logic HORN)(check-sat)(exit)(get-model 1)(set-option :a)",
        b"(set-logic HORN)(check-sat)(get-proof)(set-info)()",
        b"(set-logic HORN)(|check-sat|)(check-sat)",
        b"(check-sat) )",
    ];
    let wanted = [
        b"16 OtherLogic let".as_slice(),
        b"16 UnknownCommand push",
        b"16 UnknownCommand define-fun",
        b"17 NoCheck ",
        b"46 AfterCheck ",
        b"48 AfterCheck ",
        b"29 AfterCheck ",
        b"12 StrayParen ",
    ];
    for (text, wanted) in texts.iter().zip(wanted) {
        assert!(rt; is_told(rt.alloc(), b"", text, wanted) == Some(true));
    }
}

#[test]
fn first_faults_of_predicates(rt: HostRuntime) {
    let texts = [
        b"(declare-fun p Int Bool)".as_slice(),
        b"(declare-fun let () Bool)",
        b"(declare-fun p ())",
        b"(declare-const p)",
        b"(declare-fun p (Int 3) Bool)",
        b"(declare-fun p ((Array Int (f))) Bool)",
        b"(declare-fun and () Int)",
        b"(declare-const true Bool)",
    ];
    let wanted = [
        b"16 BadCommand ".as_slice(),
        b"16 BadCommand ",
        b"16 BadCommand ",
        b"16 BadCommand ",
        b"36 BadCommand ",
        b"43 BadCommand ",
        b"16 NameTaken and",
        b"16 NameTaken true",
    ];
    for (text, wanted) in texts.iter().zip(wanted) {
        assert!(rt; is_told(rt.alloc(), LOGIC, text, wanted) == Some(true));
    }
}

#[test]
fn more_first_faults_of_predicates(rt: HostRuntime) {
    let texts = [
        b"(declare-const p Bool)(declare-const p Bool)".as_slice(),
        b"(declare-datatype T ((c (s Int))))(declare-fun s () Bool)",
        b"(declare-datatype T ((c (s Int))))(declare-const c Bool)",
        b"(declare-fun p (U) (Array Int Bool))",
        b"(declare-const p let)",
        b"(declare-fun p (Int U (Array Bool Int)) Bool)",
        b"(declare-fun p ((Array Bool Int) U) Bool)",
        b"(declare-fun p ((Array Int (Array Bool U))) Bool)",
    ];
    let wanted = [
        b"38 NameTaken p".as_slice(),
        b"50 NameTaken s",
        b"50 NameTaken c",
        b"16 NotPredicate p",
        b"16 NotPredicate p",
        b"36 UnknownSort U",
        b"32 ArrayIndex ",
        b"32 UnknownSort U",
    ];
    for (text, wanted) in texts.iter().zip(wanted) {
        assert!(rt; is_told(rt.alloc(), LOGIC, text, wanted) == Some(true));
    }
}

#[test]
fn first_faults_of_datatypes(rt: HostRuntime) {
    let texts = [
        b"(declare-datatypes ((T 0)))".as_slice(),
        b"(declare-datatypes ((T 0)) ())",
        b"(declare-datatypes ((T x)) (((c))))",
        b"(declare-datatypes ((T 1)) ((c)))",
        b"(declare-datatypes ((T 0)) (((c (s)))))",
        b"(declare-datatype T c)",
        b"(declare-datatype T ((c (s (Array Int)) (t U))))",
        b"(declare-datatypes ((T 0) (U 2)) (((c)) (par)))",
    ];
    let wanted = [
        b"16 BadCommand ".as_slice(),
        b"16 BadCommand ",
        b"16 BadCommand ",
        b"16 BadCommand ",
        b"16 BadCommand ",
        b"16 BadCommand ",
        b"43 BadCommand ",
        b"16 NotSupported 2",
    ];
    for (text, wanted) in texts.iter().zip(wanted) {
        assert!(rt; is_told(rt.alloc(), LOGIC, text, wanted) == Some(true));
    }
}

#[test]
fn more_first_faults_of_datatypes(rt: HostRuntime) {
    let texts = [
        b"(declare-datatypes ((T 0) (U 0)) (((c)) (par (X) ((c)))))".as_slice(),
        b"(declare-datatype T (par (X) ((c))))",
        b"(declare-datatype Int ((c (s U))))",
        b"(declare-datatype T ((c (s Int)) (d (s Int))))",
        b"(declare-const p Bool)(declare-datatype T ((p)))",
        b"(declare-datatypes ((T 0) (U 0)) (((c (s (Array U T)))) ((d (t V)))))",
        b"(declare-datatype T ((c (s (Array T Int)))))",
        b"(declare-datatypes ((T 0) (U 0)) (((c)) ((d (t U)))))",
    ];
    let wanted = [
        b"16 NotSupported par".as_slice(),
        b"16 NotSupported par",
        b"16 NameTaken Int",
        b"16 NameTaken s",
        b"38 NameTaken p",
        b"16 UnknownSort V",
        b"16 ArrayIndex ",
        b"16 NotWellFounded U",
    ];
    for (text, wanted) in texts.iter().zip(wanted) {
        assert!(rt; is_told(rt.alloc(), LOGIC, text, wanted) == Some(true));
    }
}

#[test]
fn first_faults_of_heads_and_shapes(rt: HostRuntime) {
    let texts = [
        b"(assert)".as_slice(),
        b"(assert true true)",
        b"(assert (p 0))",
        b"(assert (not and))",
        b"(declare-fun q (Int) Bool)(assert q)",
        b"(assert (is-c 0))",
        b"(assert ((_ is c) 0))",
        b"(assert (= 1.50 0))",
    ];
    let wanted = [
        b"16 BadCommand ".as_slice(),
        b"16 BadCommand ",
        b"25 UnknownName p",
        b"29 UnknownName and",
        b"50 UnknownName q",
        b"25 UnknownName is-c",
        b"31 UnknownName c",
        b"27 NotSupported 1.50",
    ];
    for (text, wanted) in texts.iter().zip(wanted) {
        assert!(rt; is_told(rt.alloc(), LOGIC, text, wanted) == Some(true));
    }
}

#[test]
fn more_first_faults_of_heads_and_shapes(rt: HostRuntime) {
    let texts = [
        b"(assert \"a\"\"b\")".as_slice(),
        b"(assert (match 0 ((c 1))))",
        b"(assert (_  bv1 8))",
        b"(assert ((as const Int) 0))",
        b"(assert (= 0 :a))",
        b"(assert (let (x 1) true))",
        b"(assert (exists ((x Int) x) true))",
        b"(assert (7 true))",
    ];
    let wanted = [
        b"24 NotSupported \"a\"\"b\"".as_slice(),
        b"25 NotSupported match",
        b"24 NotSupported (_ bv1 8)",
        b"25 NotSupported (as const Int)",
        b"29 BadCommand ",
        b"24 BadCommand ",
        b"24 BadCommand ",
        b"24 BadCommand ",
    ];
    for (text, wanted) in texts.iter().zip(wanted) {
        assert!(rt; is_told(rt.alloc(), LOGIC, text, wanted) == Some(true));
    }
}

#[test]
fn first_faults_of_terms_and_clauses(rt: HostRuntime) {
    let texts = [
        b"(assert (let ((x 1) (x 2)) true))".as_slice(),
        b"(assert (forall ((x Int) (y U) (x Int)) true))",
        b"(assert (forall ((x (f))) true))",
        b"(assert (forall ((x Int) (y U) (z (Array Bool Int))) true))",
        b"(assert (exists ((x (Array Bool Int))) true))",
        b"(assert (=> (p 0)))",
        b"(declare-fun q (Int) Bool)(assert (q 0 r))",
        b"(assert (and (not 1) (p 0)))",
    ];
    let wanted = [
        b"37 NameTaken x".as_slice(),
        b"48 NameTaken x",
        b"36 BadCommand ",
        b"44 UnknownSort U",
        b"36 ArrayIndex ",
        b"24 WrongCount ",
        b"50 WrongCount ",
        b"29 WrongSort ",
    ];
    for (text, wanted) in texts.iter().zip(wanted) {
        assert!(rt; is_told(rt.alloc(), LOGIC, text, wanted) == Some(true));
    }
}

#[test]
fn more_first_faults_of_terms_and_clauses(rt: HostRuntime) {
    let texts = [
        b"(declare-datatype T ((c) (d (f Int))))(assert (= c (d true)))".as_slice(),
        b"(assert 0)",
        b"(assert (< 0 170141183460469231731687303715884105728))",
        b"(assert (and true (forall ((x Int)) true)))",
        b"(declare-const p Bool)(declare-const q Bool)(assert (or p q))",
        b"(declare-const p Bool)(assert (and p p))",
        b"(declare-fun q (Bool) Bool)(assert (q (q true)))",
        b"(declare-const p Bool)(assert (and p (exists ((x Int)) true)))",
    ];
    let wanted = [
        b"67 WrongSort ".as_slice(),
        b"16 WrongSort ",
        b"29 NumeralTooLarge ",
        b"16 QuantInside ",
        b"60 NotHorn ",
        b"38 NotHorn ",
        b"43 NotHorn ",
        b"38 QuantInside ",
    ];
    for (text, wanted) in texts.iter().zip(wanted) {
        assert!(rt; is_told(rt.alloc(), LOGIC, text, wanted) == Some(true));
    }
}

#[test]
fn first_faults_of_deep_texts(rt: HostRuntime) {
    let fronts = [
        b"".as_slice(),
        b"",
        b"",
        b"(set-logic HORN)(declare-fun p (",
        b"(set-logic HORN)(declare-datatype T ((c (s ",
        b"(set-logic HORN)(assert (forall ((x ",
        b"(set-logic HORN)(assert ",
        b"(set-logic HORN)(assert (let ((a (or true true))) ",
    ];
    let opens = [
        b"(".as_slice(),
        b"(",
        b"(",
        b"(Array Int ",
        b"(Array Int ",
        b"(Array Int ",
        b"(not ",
        b"(let ((a (or a a))) ",
    ];
    let middles = [
        b"".as_slice(),
        b"",
        b"",
        b"Int",
        b"Int",
        b"Int",
        b"true",
        b"a",
    ];
    let closes = [b"".as_slice(), b"", b")", b")", b")", b")", b")", b")"];
    let ends = [
        b"".as_slice(),
        b"",
        b"",
        b") Bool)",
        b"))))",
        b")) true))",
        b")",
        b"))",
    ];
    let counts = [1001, 1000, 1000, 16, 16, 16, 900, 17];
    let wanted = [
        b"1000 TooDeep ".as_slice(),
        b"999 OpenParen ",
        b"0 BadCommand ",
        b"32 SortTooDeep ",
        b"16 SortTooDeep ",
        b"36 SortTooDeep ",
        b"24 TooDeep ",
        b"379 TooLarge ",
    ];
    for i in 0..8 {
        let frame = Frame {
            front: fronts[i],
            open: opens[i],
            close: closes[i],
            end: ends[i],
            count: counts[i],
        };
        match framed(rt.alloc(), &frame, middles[i]) {
            Ok(text) => {
                assert!(rt; is_told(rt.alloc(), b"", text.bytes(), wanted[i]) == Some(true));
            }
            Err(_) => assert!(rt; false),
        }
    }
}

#[test]
fn limits_of_single_commands(rt: HostRuntime) {
    let fronts = [
        b"(set-logic HORN)(declare-fun p (".as_slice(),
        b"(set-logic HORN)(assert ",
        b"(set-logic HORN)(assert (let ((a (or true true))) ",
        b"(set-logic HORN)(assert ",
        b"(set-logic HORN)(declare-const p Bool)(assert (not (and",
    ];
    let opens = [
        b" Int".as_slice(),
        b"(= true ",
        b"(let ((a (or a a))) ",
        b"(forall ((a Int)(b Int)(c Int)(d Int)(e Int)(f Int)) ",
        b" p",
    ];
    let middles = [b"".as_slice(), b"true", b"a", b"true", b""];
    let closes = [b"".as_slice(), b")", b")", b")", b""];
    let ends = [b") Bool)".as_slice(), b")", b"))", b")", b")))"];
    let counts = [1025, 899, 16, 683, 257];
    let wanted = [
        b"16 TooMany L8".as_slice(),
        b"16 TooMany L4",
        b"16 TooMany L5",
        b"16 TooMany L10",
        b"38 TooMany L11",
    ];
    for i in 0..5 {
        let frame = Frame {
            front: fronts[i],
            open: opens[i],
            close: closes[i],
            end: ends[i],
            count: counts[i],
        };
        match framed(rt.alloc(), &frame, middles[i]) {
            Ok(text) => {
                assert!(rt; is_told(rt.alloc(), b"", text.bytes(), wanted[i]) == Some(true));
            }
            Err(_) => assert!(rt; false),
        }
    }
}

#[test]
fn most_clauses_of_a_script(rt: HostRuntime) {
    let fronts = [
        b"(set-logic HORN)".as_slice(),
        b"(set-logic HORN)",
        b"(set-logic HORN)(declare-const p Bool)",
    ];
    let opens = [b"(assert true)".as_slice(), b"(assert true)", b"(assert p)"];
    let middles = [b"".as_slice(), b"", b""];
    let closes = [b"".as_slice(), b"", b""];
    let ends = [b"".as_slice(), b"(check-sat)", b"(assert true)(check-sat)"];
    let counts = [65537, 65536, 65535];
    let wanted = [
        b"851984 TooMany L9".as_slice(),
        b"851984 TooMany L9",
        b"1 predicates, 65536 clauses",
    ];
    for i in 0..3 {
        let frame = Frame {
            front: fronts[i],
            open: opens[i],
            close: closes[i],
            end: ends[i],
            count: counts[i],
        };
        match framed(rt.alloc(), &frame, middles[i]) {
            Ok(text) => {
                assert!(rt; is_told(rt.alloc(), b"", text.bytes(), wanted[i]) == Some(true));
            }
            Err(_) => assert!(rt; false),
        }
    }
}

#[test]
fn limits_of_names(rt: HostRuntime) {
    let fronts = [
        b"(set-logic HORN)(declare-datatype T (".as_slice(),
        b"(set-logic HORN)(declare-datatype T ((c",
        b"(set-logic HORN)",
        b"(set-logic HORN)",
        b"(set-logic HORN)",
    ];
    let befores = [
        b"(c".as_slice(),
        b" (s",
        b"(declare-const p",
        b"(declare-const p",
        b"(declare-const p",
    ];
    let afters = [b")".as_slice(), b" Int)", b" Bool)", b" Bool)", b" Bool)"];
    let ends = [
        b"))".as_slice(),
        b")))",
        b"",
        b"(check-sat)",
        b"(assert true)(check-sat)",
    ];
    let counts = [257, 65, 65537, 65536, 65536];
    let wanted = [
        b"16 TooMany L13".as_slice(),
        b"16 TooMany L14",
        b"1758378 TooMany L7",
        b"1758378 TooMany L7",
        b"65536 predicates, 1 clauses",
    ];
    for i in 0..5 {
        let frame = Frame {
            front: fronts[i],
            open: befores[i],
            close: afters[i],
            end: ends[i],
            count: counts[i],
        };
        match numbered(rt.alloc(), &frame) {
            Ok(text) => {
                assert!(rt; is_told(rt.alloc(), b"", text.bytes(), wanted[i]) == Some(true));
            }
            Err(_) => assert!(rt; false),
        }
    }
}

/// A group of so many datatypes, each with one constructor, and what follows it.
fn one_group(alloc: Global, count: usize, end: &[u8]) -> Result<ByteText, NoMemory> {
    let heads = Frame {
        front: b"(set-logic HORN)(declare-datatypes (",
        open: b"(T",
        close: b" 0)",
        end: b") (",
        count,
    };
    let bodies = Frame {
        front: b"",
        open: b"((c",
        close: b"))",
        end: b"))",
        count,
    };
    let mut text = numbered(alloc, &heads)?;
    text.extend(numbered(alloc, &bodies)?.bytes())?;
    text.extend(end)?;
    Ok(text)
}

#[test]
fn most_datatypes_of_a_script(rt: HostRuntime) {
    let counts = [1025, 1024, 1024];
    let ends = [
        b"(check-sat)".as_slice(),
        b"(declare-datatype T ((c)))",
        b"(check-sat)",
    ];
    let wanted = [
        b"16 TooMany L12".as_slice(),
        b"16253 TooMany L12",
        b"0 predicates, 0 clauses",
    ];
    for i in 0..3 {
        match one_group(rt.alloc(), counts[i], ends[i]) {
            Ok(text) => {
                assert!(rt; is_told(rt.alloc(), b"", text.bytes(), wanted[i]) == Some(true));
            }
            Err(_) => assert!(rt; false),
        }
    }
}

/// A script of 31 clauses of the charge 131,073, each a disjunction of 65,536 truths with what is asserted of it; then a
/// disjunction of 65,520 truths behind those literals, and the end.
fn charged(
    alloc: Global,
    asserted: &[u8],
    literals: &[u8],
    end: &[u8],
) -> Result<ByteText, NoMemory> {
    let frame = Frame {
        front: b"(assert (let ((a (or true true))) ",
        open: b"(let ((a (or a a))) ",
        close: b")",
        end: b"))",
        count: 15,
    };
    let clause = framed(alloc, &frame, asserted)?;
    let mut text = ByteText::new(alloc);
    text.extend(b"(set-logic HORN)(declare-const p Bool)")?;
    repeat(&mut text, clause.bytes(), 31)?;
    text.extend(b"(assert (or")?;
    text.extend(literals)?;
    repeat(&mut text, b" true", 65520)?;
    text.extend(b"))")?;
    text.extend(end)?;
    Ok(text)
}

#[test]
fn highest_charge_of_a_script(rt: HostRuntime) {
    let asserted = [b"a".as_slice(), b"a", b"(or p a)"];
    let literals = [b" (not p)".as_slice(), b"", b""];
    let ends = [b"(check-sat)".as_slice(), b"(check-sat)", b"(check-sat)"];
    let wanted = [
        b"10950 TooMany L6".as_slice(),
        b"338563 TooMany L6",
        b"1 predicates, 32 clauses",
    ];
    for i in 0..3 {
        match charged(rt.alloc(), asserted[i], literals[i], ends[i]) {
            Ok(text) => {
                assert!(rt; is_told(rt.alloc(), b"", text.bytes(), wanted[i]) == Some(true));
            }
            Err(_) => assert!(rt; false),
        }
    }
}

#[test]
fn leniencies_are_accepted(rt: HostRuntime) {
    let texts = [
        b"(assert (and true))(check-sat)".as_slice(),
        b"(assert (or (= (+ 1) (* 1))))(check-sat)",
        b"(assert (! true :named |a b| :weight (1 \"c\")))(check-sat)",
        b"(declare-datatype T ((c)))(assert (is-c c))(check-sat)",
        b"(declare-const assert Bool)(declare-fun push (Int) Bool)(assert (=> (push 1) assert))(check-sat)",
        b"(assert (forall () (exists () true)))(check-sat)",
        b"(declare-const |a\x01\n| Bool)(assert |a\x01\n|)(check-sat)",
        b"(set-info :a \"\x01\x7f\")(check-sat)(exit \"\x02\")",
    ];
    let wanted = [
        b"0 predicates, 1 clauses".as_slice(),
        b"0 predicates, 1 clauses",
        b"0 predicates, 1 clauses",
        b"0 predicates, 1 clauses",
        b"2 predicates, 1 clauses",
        b"0 predicates, 1 clauses",
        b"1 predicates, 1 clauses",
        b"0 predicates, 0 clauses",
    ];
    for (text, wanted) in texts.iter().zip(wanted) {
        assert!(rt; is_told(rt.alloc(), LOGIC, text, wanted) == Some(true));
    }
}

#[test]
fn scripts_that_are_read(rt: HostRuntime) {
    let texts = [
        b"(check-sat)".as_slice(),
        b"(declare-datatypes () ())(assert true)(check-sat)(get-model)(set-info :a)",
        b"(declare-datatypes ((C 0)) (((red) (green))))(declare-fun p (C) Bool)(assert (p red))(assert (not (p green)))(check-sat)",
        b"(assert (< 0 170141183460469231731687303715884105727))(check-sat)",
        b"(set-option :a b)(|declare-const| |p| |Bool|)(|assert| p)(check-sat)",
        b"(declare-datatypes ((T 0) (U 0)) (((c (s U))) ((d) (e (t (Array Int T))))))(declare-fun p (T U) Bool)(check-sat)(get-proof)(exit)",
    ];
    let wanted = [
        b"0 predicates, 0 clauses".as_slice(),
        b"0 predicates, 1 clauses",
        b"1 predicates, 2 clauses",
        b"0 predicates, 1 clauses",
        b"1 predicates, 1 clauses",
        b"1 predicates, 0 clauses",
    ];
    for (text, wanted) in texts.iter().zip(wanted) {
        assert!(rt; is_told(rt.alloc(), LOGIC, text, wanted) == Some(true));
    }
}

/// A loop that counts to 10.
const COUNTING_LOOP: &[u8] = b"(set-logic HORN)
(declare-fun inv (Int Int) Bool)
(assert (forall ((x Int) (y Int)) (=> (and (= x 0) (= y 0)) (inv x y))))
(assert (forall ((x Int) (y Int) (x1 Int) (y1 Int)) (=> (and (inv x y) (< x 10) (= x1 (+ x 1)) (= y1 (+ y x))) (inv x1 y1))))
(assert (forall ((x Int) (y Int)) (=> (and (inv x y) (>= x 10)) (= x 10))))
(check-sat)
";

/// The same loop as competitions lay scripts out.
const COMPETITION_LAYOUT: &[u8] = b"(set-logic HORN)
(set-info :status sat)
(set-info :smt-lib-version 2.6)
(declare-fun |inv| ( Int Int ) Bool)
(assert (forall ( (A Int) (B Int) ) (=> (and (and (= A 0) (= B 0))) (inv A B))))
(assert (forall ( (A Int) (B Int) (C Int) (D Int) ) (=> (and (inv A B) (and (< A 10) (and (= C (+ A 1)) (= D (+ B A)) true))) (inv C D))))
(assert (forall ( (A Int) (B Int) ) (=> (and (inv A B) (and (>= A 10) (not (= A 10)))) false)))
(check-sat)
(exit)
";

/// The clauses of the loop.
const LOOP_CLAUSES: &[u8] = b"2 1: (= x0 0) (= x1 0) | => (0 x0 x1)
4 1: (< x0 10) (= x2 (+ x0 1)) (= x3 (+ x1 x0)) | (0 x0 x1) => (0 x2 x3)
2 1: (<= 10 x0) (not (= x0 10)) | (0 x0 x1) =>
";

#[test]
fn layouts_of_one_loop_are_read_alike(rt: HostRuntime) {
    assert!(rt; has_clauses(rt.alloc(), COUNTING_LOOP, LOOP_CLAUSES) == Some(true));
    assert!(rt; has_clauses(rt.alloc(), COMPETITION_LAYOUT, LOOP_CLAUSES) == Some(true));
}
