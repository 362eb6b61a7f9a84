//! Answers with their first faults, definitions that are read, and the texts of definitions.

ghost use Rattle.std.specs.Prelude.{IfOk};
ghost use Rattle.chc_state.specs.Definitions.{Defines};

use crate::{defs_text, read_defs};
use chc_sexpr::{TextErr, TextFault};
use chc_sorts::{CtorSpec, DataSpec, FieldSpec, List, Name, NoMemory, Sig, SigErr, Sort, SortSpec};
use chc_source::ByteText;
use chc_state::{Defs, Names, PredDecl, State, positions_fit};
use std::alloc::Global;

/// Two states with names of their predicates.
#[derive(Clone, Copy)]
enum States {
    /// Colours and pairs; `p` on an Int, `q` on nothing, and `r` on an Int, which isn't live.
    First,
    /// `lift!0` on an Int, `x0` on nothing, and a helper on a Bool.
    Second,
}

/// The name of those bytes.
fn name(alloc: Global, bytes: &[u8]) -> Result<Name, NoMemory> {
    let mut name = List::new(alloc);
    for b in bytes {
        name.push(*b)?;
    }
    Ok(name)
}

/// The names of those bytes.
fn names(alloc: Global, all: &[&[u8]]) -> Result<Names, NoMemory> {
    let mut names = List::new(alloc);
    for bytes in all {
        names.push(name(alloc, bytes)?)?;
    }
    Ok(names)
}

/// A field of that name and sort.
fn field(alloc: Global, bytes: &[u8], sort: &[u8]) -> Result<FieldSpec, NoMemory> {
    Ok(FieldSpec {
        name: name(alloc, bytes)?,
        sort: SortSpec::Named(name(alloc, sort)?),
    })
}

/// A datatype of that name with these constructors.
fn datatype(alloc: Global, bytes: &[u8], ctors: List<CtorSpec>) -> Result<DataSpec, NoMemory> {
    Ok(DataSpec {
        name: name(alloc, bytes)?,
        ctors,
    })
}

/// Three colours.
fn colour(alloc: Global) -> Result<DataSpec, NoMemory> {
    let mut ctors = List::new(alloc);
    for bytes in [b"red".as_slice(), b"green", b"blue"] {
        ctors.push(CtorSpec {
            name: name(alloc, bytes)?,
            fields: List::new(alloc),
        })?;
    }
    datatype(alloc, b"Color", ctors)
}

/// Pairs of a colour and an Int.
fn pair(alloc: Global) -> Result<DataSpec, NoMemory> {
    let mut fields = List::new(alloc);
    fields.push(field(alloc, b"fst", b"Color")?)?;
    fields.push(field(alloc, b"snd", b"Int")?)?;
    let mut ctors = List::new(alloc);
    ctors.push(CtorSpec {
        name: name(alloc, b"mk")?,
        fields,
    })?;
    datatype(alloc, b"Pair", ctors)
}

/// The group of colours and pairs.
fn datatypes(alloc: Global) -> Result<List<DataSpec>, NoMemory> {
    let mut group = List::new(alloc);
    group.push(colour(alloc)?)?;
    group.push(pair(alloc)?)?;
    Ok(group)
}

/// The signature of colours and pairs.
fn signature(alloc: Global) -> Result<Sig, SigErr> {
    let group = datatypes(alloc)?;
    let mut sig = Sig::new(alloc);
    sig.add_group(alloc, group.as_slice(), &List::new(alloc))?;
    Ok(sig)
}

/// A predicate on one position of that sort.
fn on_one(alloc: Global, sort: Sort, live: bool) -> Result<PredDecl, NoMemory> {
    let mut sorts = List::new(alloc);
    sorts.push(sort)?;
    Ok(PredDecl { sorts, live })
}

/// A live predicate on an Int, one on nothing, and another one.
fn preds(alloc: Global, third: PredDecl) -> Result<List<PredDecl>, NoMemory> {
    let mut preds = List::new(alloc);
    preds.push(on_one(alloc, Sort::Int, true)?)?;
    preds.push(PredDecl {
        sorts: List::new(alloc),
        live: true,
    })?;
    preds.push(third)?;
    Ok(preds)
}

/// The state of these predicates, without clauses, if it is one and memory isn't refused.
fn state_of(alloc: Global, sig: Sig, preds: List<PredDecl>) -> Option<State> {
    if preds.len() < 1_000 && positions_fit(&sig, &preds) {
        State::make(alloc, sig, preds, List::new(alloc)).ok()
    } else {
        None
    }
}

/// A state and its names.
fn state(alloc: Global, which: States) -> Option<(State, Names)> {
    match which {
        States::First => {
            let third = on_one(alloc, Sort::Int, false).ok()?;
            let state = state_of(alloc, signature(alloc).ok()?, preds(alloc, third).ok()?)?;
            Some((state, names(alloc, &[b"p", b"q", b"r"]).ok()?))
        }
        States::Second => {
            let third = on_one(alloc, Sort::Bool, true).ok()?;
            let state = state_of(alloc, Sig::new(alloc), preds(alloc, third).ok()?)?;
            Some((state, names(alloc, &[b"lift!0", b"x0"]).ok()?))
        }
    }
}

/// Adds the numbers of the predicates' definitions.
fn tell_entries(alloc: Global, out: &mut ByteText, of: &[Option<u64>]) -> Result<(), NoMemory> {
    for entry in of {
        match entry {
            Some(k) => out.extend(format!(in alloc; "{k} ")?.as_bytes())?,
            None => out.extend(b"- ")?,
        }
    }
    Ok(())
}

/// The reading of a text, of which tests know no more than that definitions are those of the state.
fn read(alloc: Global, s: &State, names: &Names, text: &[u8]) -> Result<Defs, TextErr>
    ensures { IfOk result (λ d. Defines d s.now) }
{
    if text.len() > 4_294_967_295 {
        return Err(TextErr::NoMemory);
    }
    read_defs(alloc, text, s, names)
}

/// The text of definitions, of which tests know no more than its bytes.
fn text_of(alloc: Global, defs: &Defs, s: &State, names: &Names) -> Result<ByteText, NoMemory>
    requires { Defines defs.now s.now }
{
    defs_text(alloc, defs, s, names)
}

/// Adds the numbers of the predicates' definitions and the text of the definitions.
fn tell_defs(
    alloc: Global,
    out: &mut ByteText,
    s: &State,
    names: &Names,
    defs: &Defs,
) -> Result<(), NoMemory>
    requires { Defines defs.now s.now }
{
    tell_entries(alloc, out, defs.of.as_slice())?;
    let text = text_of(alloc, defs, s, names)?;
    out.extend(text.bytes())
}

/// Adds a fault: its place, what it is, and its name.
fn tell_fault(alloc: Global, out: &mut ByteText, fault: &TextFault) -> Result<(), NoMemory> {
    let place = fault.place;
    out.extend(format!(in alloc; "{place} ")?.as_bytes())?;
    out.extend(fault.fault.name())?;
    out.push(b' ')?;
    out.extend(fault.name.bytes())
}

/// Adds what the reading of a text answers: the numbers of the predicates' definitions and the text of the definitions, or
/// its fault with place and name.
fn tell(
    alloc: Global,
    out: &mut ByteText,
    s: &State,
    names: &Names,
    text: &[u8],
) -> Result<(), NoMemory> {
    match read(alloc, s, names, text) {
        Ok(defs) => tell_defs(alloc, out, s, names, &defs),
        Err(TextErr::At(fault)) => tell_fault(alloc, out, &fault),
        Err(TextErr::NoMemory) => Err(NoMemory),
    }
}

/// What the reading of a text for a state answers, or `None` where memory was refused.
fn told(alloc: Global, which: States, text: &[u8]) -> Option<ByteText> {
    let (s, names) = state(alloc, which)?;
    let mut out = ByteText::new(alloc);
    tell(alloc, &mut out, &s, &names, text).ok()?;
    Some(out)
}

/// Whether the text is told so, or `None` where memory was refused.
fn is_told(alloc: Global, which: States, text: &[u8], wanted: &[u8]) -> Option<bool> {
    let out = told(alloc, which, text)?;
    Some(out.bytes() == wanted)
}

/// The text of the definitions that a text says; `None` where it says none or memory was refused.
fn written(alloc: Global, s: &State, names: &Names, text: &[u8]) -> Option<ByteText> {
    let defs = read(alloc, s, names, text).ok()?;
    text_of(alloc, &defs, s, names).ok()
}

/// Whether the text of the definitions that a text says is read again as definitions of that text.
fn is_read_again(alloc: Global, which: States, text: &[u8]) -> Option<bool> {
    let (s, names) = state(alloc, which)?;
    let first = written(alloc, &s, &names, text)?;
    let second = written(alloc, &s, &names, first.bytes())?;
    Some(first.bytes() == second.bytes())
}

#[test]
fn texts_that_are_no_answers(rt: HostRuntime) {
    let texts = [
        b"".as_slice(),
        b"unknown",
        b" ; c\n () sat",
        b":sat",
        b"unsat",
        b" unsat (x)",
        b"unknown )",
    ];
    let wanted = [
        b"0 NotAnswer ".as_slice(),
        b"0 NotAnswer ",
        b"6 NotAnswer ",
        b"0 NotAnswer ",
        b"0 BadForm ",
        b"1 BadForm ",
        b"8 StrayParen ",
    ];
    for (text, wanted) in texts.iter().zip(wanted) {
        assert!(rt; is_told(rt.alloc(), States::First, text, wanted) == Some(true));
    }
}

#[test]
fn groups_that_are_missing(rt: HostRuntime) {
    let texts = [
        b"sat".as_slice(),
        b"sat  ",
        b"sat model",
        b"sat () ()",
        b"sat (model model)",
        b"sat ((define-fun p ((x Int)) Bool true) model)",
        b"sat ((define-fun p ((x Int)) Bool)) x",
    ];
    let wanted = [
        b"3 BadForm ".as_slice(),
        b"5 BadForm ",
        b"4 BadForm ",
        b"7 BadForm ",
        b"11 BadForm ",
        b"40 BadForm ",
        b"5 BadForm ",
    ];
    for (text, wanted) in texts.iter().zip(wanted) {
        assert!(rt; is_told(rt.alloc(), States::First, text, wanted) == Some(true));
    }
}

#[test]
fn parameters_that_do_not_fit(rt: HostRuntime) {
    let texts = [
        b"sat ((define-fun p (x) Bool true))".as_slice(),
        b"sat ((define-fun p ((x)) Bool true))",
        b"sat ((define-fun p ((x Int Int)) Bool true))",
        b"sat ((define-fun p x Bool true))",
        b"sat ((define-fun p ((1 Int)) Bool true))",
        b"sat ((define-fun p ((let Int)) Bool true))",
    ];
    let wanted = [
        b"5 BadForm ".as_slice(),
        b"5 BadForm ",
        b"5 BadForm ",
        b"5 BadForm ",
        b"5 BadForm ",
        b"5 BadForm ",
    ];
    for (text, wanted) in texts.iter().zip(wanted) {
        assert!(rt; is_told(rt.alloc(), States::First, text, wanted) == Some(true));
    }
}

#[test]
fn definitions_that_do_not_fit(rt: HostRuntime) {
    let texts = [
        b"sat ((define-fun (p) () Bool true))".as_slice(),
        b"sat ((define-fun let () Bool true))",
        b"sat ((declare-fun q () Bool true))",
        b"sat ((define-fun q () Bool true true))",
        b"sat (())",
        b"sat ((define-fun and ((x Foo)) Bool y) q)",
        b"sat ((define-fun p ((x Int)) Bool y)) z",
        b"sat ((define-fun p ((x Int)) Bool true) |",
    ];
    let wanted = [
        b"5 BadForm ".as_slice(),
        b"5 BadForm ",
        b"5 BadForm ",
        b"5 BadForm ",
        b"5 BadForm ",
        b"39 BadForm ",
        b"38 BadForm ",
        b"40 OpenQuoted ",
    ];
    for (text, wanted) in texts.iter().zip(wanted) {
        assert!(rt; is_told(rt.alloc(), States::First, text, wanted) == Some(true));
    }
}

#[test]
fn names_that_are_taken(rt: HostRuntime) {
    let texts = [
        b"sat ((define-fun and ((x Foo)) Bool y))".as_slice(),
        b"sat ((define-fun |false| () Bool true))",
        b"sat ((define-fun true () Bool true))",
        b"sat ((define-fun red () Bool true))",
        b"sat ((define-fun snd () Bool true))",
        b"sat ((define-fun h ((x Foo) (x Int)) Bar y))",
    ];
    let wanted = [
        b"5 NameTaken and".as_slice(),
        b"5 NameTaken false",
        b"5 NameTaken true",
        b"5 NameTaken red",
        b"5 NameTaken snd",
        b"29 NameTaken x",
    ];
    for (text, wanted) in texts.iter().zip(wanted) {
        assert!(rt; is_told(rt.alloc(), States::First, text, wanted) == Some(true));
    }
}

#[test]
fn names_that_stand_twice(rt: HostRuntime) {
    let texts = [
        b"sat ((define-fun q () Bool true) (define-fun q () Bool true))".as_slice(),
        b"sat ((define-fun q () Bool true) (define-fun q ((x Foo) (x Int)) Bar z))",
        b"sat ((define-fun h () Int 1) (define-fun p ((x Int)) Bool true) (define-fun h () Int 1) (define-fun and () Int 1))",
    ];
    let wanted = [b"33 Twice q".as_slice(), b"33 Twice q", b"64 Twice h"];
    for (text, wanted) in texts.iter().zip(wanted) {
        assert!(rt; is_told(rt.alloc(), States::First, text, wanted) == Some(true));
    }
}

#[test]
fn sorts_that_are_not_read(rt: HostRuntime) {
    let texts = [
        b"sat ((define-fun h ((x Foo) (y (Array Bool Int))) Bar z))".as_slice(),
        b"sat ((define-fun h ((x Int) (y (Array Bool Int))) Bar z))",
        b"sat ((define-fun h ((x 1)) Bar z))",
        b"sat ((define-fun h ((x (Array Int (List Int)))) Bar z))",
        b"sat ((define-fun h ((x (Array Int (Array Int (Array Int (Array Int (Array Int (Array Int (Array Int (Array Int (Array Int (Array Int (Array Int (Array Int (Array Int (Array Int (Array Int (Array Int Int)))))))))))))))))) Bar z))",
        b"sat ((define-fun h ((x Int)) Bar y))",
        b"sat ((define-fun h ((x Int)) \"Bar\" y))",
    ];
    let wanted = [
        b"23 UnknownSort Foo".as_slice(),
        b"31 ArrayIndex ",
        b"23 BadCommand ",
        b"34 BadCommand ",
        b"23 SortTooDeep ",
        b"29 UnknownSort Bar",
        b"29 BadCommand ",
    ];
    for (text, wanted) in texts.iter().zip(wanted) {
        assert!(rt; is_told(rt.alloc(), States::First, text, wanted) == Some(true));
    }
}

#[test]
fn bodies_that_are_not_read(rt: HostRuntime) {
    let texts = [
        b"sat ((define-fun h ((x Int)) Bool y))".as_slice(),
        b"sat ((define-fun h ((x Int)) Bool (not (not x))))",
        b"sat ((define-fun p ((x Int)) Bool (p x)))",
        b"sat ((define-fun p ((x Int)) Bool q))",
        b"sat ((define-fun h () Bool (k 1)) (define-fun k ((x Int)) Bool true))",
        b"sat ((define-fun h ((a Int)) Bool true) (define-fun k () Bool (and a true)))",
        b"sat ((define-fun h ((a Int)) Bool true) (define-fun k () Bool (h 1 2)))",
        b"sat ((define-fun h ((a Int)) Bool true) (define-fun k () Bool (h true)))",
    ];
    let wanted = [
        b"34 UnknownName y".as_slice(),
        b"39 WrongSort ",
        b"35 UnknownName p",
        b"34 UnknownName q",
        b"28 UnknownName k",
        b"67 UnknownName a",
        b"62 WrongCount ",
        b"62 WrongSort ",
    ];
    for (text, wanted) in texts.iter().zip(wanted) {
        assert!(rt; is_told(rt.alloc(), States::First, text, wanted) == Some(true));
    }
}

#[test]
fn definitions_of_other_sorts(rt: HostRuntime) {
    let texts = [
        b"sat ((define-fun h ((x Int)) Bool x))".as_slice(),
        b"sat ((define-fun p ((x Bool)) Int x))",
        b"sat ((define-fun p ((x Bool)) Bool x))",
        b"sat ((define-fun p () Bool true))",
        b"sat ((define-fun p ((x Int) (y Int)) Bool true))",
        b"sat ((define-fun p ((x Int)) Int x))",
        b"sat ((define-fun p ((x Int)) Bool true) (define-fun q ((x Int)) Bool true) (define-fun p ((x Int)) Bool true))",
    ];
    let wanted = [
        b"5 WrongSort ".as_slice(),
        b"5 WrongSort ",
        b"5 WrongParams p",
        b"5 WrongParams p",
        b"5 WrongParams p",
        b"5 WrongParams p",
        b"40 WrongParams q",
    ];
    for (text, wanted) in texts.iter().zip(wanted) {
        assert!(rt; is_told(rt.alloc(), States::First, text, wanted) == Some(true));
    }
}

#[test]
fn predicates_that_are_missing(rt: HostRuntime) {
    let texts = [
        b"sat ()".as_slice(),
        b"sat (model) ; end",
        b"sat ((define-fun p ((x Int)) Bool true))",
        b"sat ((define-fun q () Bool true) (define-fun r ((x Int)) Bool true)) ",
    ];
    let wanted = [
        b"6 Missing p".as_slice(),
        b"17 Missing p",
        b"40 Missing q",
        b"69 Missing p",
    ];
    for (text, wanted) in texts.iter().zip(wanted) {
        assert!(rt; is_told(rt.alloc(), States::First, text, wanted) == Some(true));
    }
}

#[test]
fn definitions_that_are_read(rt: HostRuntime) {
    let texts = [
        b"sat((define-fun q()Bool true)(define-fun p((n Int))Bool(<= n 1)))".as_slice(),
        b"|sat| (|model| (|define-fun| |p| ((|a b| |Int|)) |Bool| (= |a b| (- 5))) (define-fun q () Bool true)) ; no more",
    ];
    let wanted = [
        b"1 0 - sat\n(\n(define-fun q () Bool true)\n(define-fun p ((x0 Int)) Bool (<= x0 1))\n)\n".as_slice(),
        b"0 1 - sat\n(\n(define-fun p ((x0 Int)) Bool (= x0 (- 5)))\n(define-fun q () Bool true)\n)\n",
    ];
    for (text, wanted) in texts.iter().zip(wanted) {
        assert!(rt; is_told(rt.alloc(), States::First, text, wanted) == Some(true));
        assert!(rt; is_read_again(rt.alloc(), States::First, text) == Some(true));
    }
}

#[test]
fn a_helper_with_two_parameters(rt: HostRuntime) {
    let text =
        b"sat (model (define-fun h ((n Int) (b Bool)) Int (ite b n 0)) (define-fun p ((n Int)) Bool (<= (h n true) 10)) (define-fun q () Bool (exists ((y Int)) (p y))))".as_slice();
    let wanted =
        b"1 2 - sat\n(\n(define-fun lift!0 ((x0 Int) (x1 Bool)) Int (ite x1 x0 0))\n(define-fun p ((x0 Int)) Bool (<= (lift!0 x0 true) 10))\n(define-fun q () Bool (exists ((x0 Int)) (p x0)))\n)\n".as_slice();
    assert!(rt; is_told(rt.alloc(), States::First, text, wanted) == Some(true));
    assert!(rt; is_read_again(rt.alloc(), States::First, text) == Some(true));
}

#[test]
fn names_that_binders_hide(rt: HostRuntime) {
    let text =
        b"sat ((define-fun r () Int 5) (define-fun p ((q Int)) Bool (forall ((p Int) (q Bool)) (or q (< r p)))) (define-fun q () Bool (p r)) (define-fun last () Bool q))".as_slice();
    let wanted =
        b"1 2 - sat\n(\n(define-fun lift!0 () Int 5)\n(define-fun p ((x0 Int)) Bool (forall ((x1 Int) (x2 Bool)) (or x2 (< lift!0 x1))))\n(define-fun q () Bool (p lift!0))\n(define-fun lift!1 () Bool q)\n)\n".as_slice();
    assert!(rt; is_told(rt.alloc(), States::First, text, wanted) == Some(true));
    assert!(rt; is_read_again(rt.alloc(), States::First, text) == Some(true));
}

#[test]
fn definitions_over_datatypes(rt: HostRuntime) {
    let text =
        b"sat ((define-fun f ((c Color) (k Pair)) Bool (and ((_ is red) c) (= (fst k) c) (is-green (fst (mk c 1))))) (define-fun c () Color (as blue Color)) (define-fun p ((true Int)) Bool (<= true (snd (mk c true)))) (define-fun q () Bool (f c (mk red 2))))".as_slice();
    let wanted =
        b"2 3 - sat\n(\n(define-fun lift!0 ((x0 Color) (x1 Pair)) Bool (and ((_ is red) x0) (= (fst x1) x0) ((_ is green) (fst (mk x0 1)))))\n(define-fun lift!1 () Color blue)\n(define-fun p ((x0 Int)) Bool (<= x0 (snd (mk lift!1 x0))))\n(define-fun q () Bool (lift!0 lift!1 (mk red 2)))\n)\n".as_slice();
    assert!(rt; is_told(rt.alloc(), States::First, text, wanted) == Some(true));
    assert!(rt; is_read_again(rt.alloc(), States::First, text) == Some(true));
}

#[test]
fn definitions_over_arrays(rt: HostRuntime) {
    let text =
        b"sat ((define-fun f ((a (Array Int Color))) (Array Int Color) (store a 0 red)) (define-fun p ((i Int)) Bool (let ((a ((as const (Array Int Color)) green)) (i 3)) (= (select (f a) i) blue))) (define-fun q () Bool (! (and (forall () true)) :named n)))".as_slice();
    let wanted =
        b"1 2 - sat\n(\n(define-fun lift!0 ((x0 (Array Int Color))) (Array Int Color) (store x0 0 red))\n(define-fun p ((x0 Int)) Bool (= (select (lift!0 ((as const (Array Int Color)) green)) 3) blue))\n(define-fun q () Bool true)\n)\n".as_slice();
    assert!(rt; is_told(rt.alloc(), States::First, text, wanted) == Some(true));
    assert!(rt; is_read_again(rt.alloc(), States::First, text) == Some(true));
}

#[test]
fn helpers_beside_names_in_use(rt: HostRuntime) {
    let text =
        b"sat ((define-fun goal!0 ((b Bool)) Bool b) (define-fun h () Int 1) (define-fun lift!0 ((x Int)) Bool (= x h)) (define-fun goal!1 () Int 7) (define-fun x0 () Bool (goal!0 true)))".as_slice();
    let wanted =
        b"2 4 0 sat\n(\n(define-fun goal!0 ((x!0 Bool)) Bool x!0)\n(define-fun lift!1 () Int 1)\n(define-fun lift!0 ((x!0 Int)) Bool (= x!0 lift!1))\n(define-fun lift!2 () Int 7)\n(define-fun x0 () Bool (goal!0 true))\n)\n".as_slice();
    assert!(rt; is_told(rt.alloc(), States::Second, text, wanted) == Some(true));
    assert!(rt; is_read_again(rt.alloc(), States::Second, text) == Some(true));
}

#[test]
fn helpers_that_are_missing(rt: HostRuntime) {
    let texts = [
        b"sat ((define-fun lift!0 ((x Int)) Bool true) (define-fun x0 () Bool true))".as_slice(),
        b"sat ((define-fun goal!0 () Bool true))",
    ];
    let wanted = [b"74 Missing goal!0".as_slice(), b"5 WrongParams goal!0"];
    for (text, wanted) in texts.iter().zip(wanted) {
        assert!(rt; is_told(rt.alloc(), States::Second, text, wanted) == Some(true));
    }
}

/// An answer with so many helpers, and `rest` behind them.
fn answer_of(alloc: Global, count: usize, rest: &[u8]) -> Result<ByteText, NoMemory> {
    let mut text = ByteText::new(alloc);
    text.extend(b"sat (")?;
    for i in 0..count {
        text.extend(format!(in alloc; "(define-fun h{i} () Int 1)")?.as_bytes())?;
    }
    text.extend(rest)?;
    text.push(b')')?;
    Ok(text)
}

/// The fault of such an answer for the first state, which stands at its length; `None` where memory was refused.
fn is_refused(alloc: Global, count: usize, rest: &[u8], wanted: &[u8]) -> Option<bool> {
    let text = answer_of(alloc, count, rest).ok()?;
    let place = text.bytes().len();
    let mut fault = ByteText::new(alloc);
    fault
        .extend(format!(in alloc; "{place} ").ok()?.as_bytes())
        .ok()?;
    fault.extend(wanted).ok()?;
    is_told(alloc, States::First, text.bytes(), fault.bytes())
}

#[test]
fn too_many_definitions(rt: HostRuntime) {
    let both = b"(define-fun p ((x Int)) Bool true)(define-fun q () Bool true)";
    assert!(rt; is_refused(rt.alloc(), 65_535, both, b"TooMany L7") == Some(true));
}
