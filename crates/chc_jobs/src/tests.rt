//! The worked example of slicing, and what goes wrong, over files and a sink in memory.

use crate::lift::normalise;
use crate::top::{Status, Word, run};
use chc_sexpr::TextErr;
use chc_source::{ByteText, Files, MemFiles, MemSink, NoMemory, QuietFiles};
use std::alloc::Global;
use std::test::Fail;

const SCRIPT: &[u8] = b"(set-logic HORN)\n\
(declare-fun inv (Int) Bool)\n\
(declare-fun log (Int) Bool)\n\
(declare-fun dead (Int) Bool)\n\
(assert (forall ((x Int)) (=> (<= x 0) (inv x))))\n\
(assert (forall ((x Int) (y Int)) (=> (and (inv x) (< x 10) (<= x y) (<= y (+ x 1))) (inv y))))\n\
(assert (forall ((x Int)) (=> (inv x) (log x))))\n\
(assert (forall ((x Int) (y Int)) (=> (and (dead x) (inv y)) (inv x))))\n\
(assert (forall ((x Int)) (=> (and (inv x) (< 20 x)) false)))\n\
(check-sat)\n\
";

const OUT: &[u8] = b"(set-logic HORN)\n\
(declare-fun inv (Int) Bool)\n\
(assert (forall ((x0 Int)) (=> (<= x0 0) (inv x0))))\n\
(assert (forall ((x0 Int) (x1 Int)) (=> (and (inv x0) (< x0 10) (<= x0 x1) (<= x1 (+ x0 1))) (inv x1))))\n\
(assert (forall ((x0 Int)) (=> (and (inv x0) (< 20 x0)) false)))\n\
(check-sat)\n\
";

const TRACE: &[u8] = b"(chc-trace 1)\n\
(source \"d8b9e70e4d8590085fd70eb8bb91b8e2369f283624520f485eea48af6dd90792\")\n\
(step unreached 2)\n\
(step unneeded 1)\n\
(target \"(set-logic HORN)\n\
(declare-fun inv (Int) Bool)\n\
(assert (forall ((x0 Int)) (=> (<= x0 0) (inv x0))))\n\
(assert (forall ((x0 Int) (x1 Int)) (=> (and (inv x0) (< x0 10) (<= x0 x1) (<= x1 (+ x0 1))) (inv x1))))\n\
(assert (forall ((x0 Int)) (=> (and (inv x0) (< 20 x0)) false)))\n\
(check-sat)\n\
\")\n\
";

// The trace with its two steps exchanged.
const EXCHANGED: &[u8] = b"(chc-trace 1)\n\
(source \"d8b9e70e4d8590085fd70eb8bb91b8e2369f283624520f485eea48af6dd90792\")\n\
(step unneeded 1)\n\
(step unreached 2)\n\
(target \"(set-logic HORN)\n\
(declare-fun inv (Int) Bool)\n\
(assert (forall ((x0 Int)) (=> (<= x0 0) (inv x0))))\n\
(assert (forall ((x0 Int) (x1 Int)) (=> (and (inv x0) (< x0 10) (<= x0 x1) (<= x1 (+ x0 1))) (inv x1))))\n\
(assert (forall ((x0 Int)) (=> (and (inv x0) (< 20 x0)) false)))\n\
(check-sat)\n\
\")\n\
";

const ANSWER: &[u8] = b"sat ((define-fun inv ((a Int)) Bool (<= a 10)))\n";

const LIFTED: &[u8] = b"sat\n\
(\n\
(define-fun inv ((x0 Int)) Bool (<= x0 10))\n\
(define-fun log ((x0 Int)) Bool true)\n\
(define-fun dead ((x0 Int)) Bool false)\n\
)\n\
";

const LIFTED_LINE: &[u8] = b"lifted: sat, definitions 3\n";

const LINE: &[u8] = b"normalised: clauses 5 to 3, steps 2\n";

// A script with a parallel binding.
const PARALLEL: &[u8] = b"(set-logic HORN)\n\
(declare-fun p (Int) Bool)\n\
(assert (forall ((x Int)) (=> (< 5 x) (p x))))\n\
(assert (forall ((x Int) (y Int)) (=> (and (p x) (let ((x y) (y x)) (< x y))) (p y))))\n\
(assert (forall ((x Int)) (=> (and (p x) (< x 0)) false)))\n\
(check-sat)\n\
";

const PARALLEL_OUT: &[u8] = b"(set-logic HORN)\n\
(declare-fun p (Int) Bool)\n\
(assert (forall ((x0 Int)) (=> (< 5 x0) (p x0))))\n\
(assert (forall ((x0 Int) (x1 Int)) (=> (and (p x0) (< x1 x0)) (p x1))))\n\
(assert (forall ((x0 Int)) (=> (and (p x0) (< x0 0)) false)))\n\
(check-sat)\n\
";

const PARALLEL_TRACE: &[u8] = b"(chc-trace 1)\n\
(source \"e2cc909a0cbb95d02c7c421a7bd5a17cd609459f31d3791ac06a55cca1974cde\")\n\
(target \"(set-logic HORN)\n\
(declare-fun p (Int) Bool)\n\
(assert (forall ((x0 Int)) (=> (< 5 x0) (p x0))))\n\
(assert (forall ((x0 Int) (x1 Int)) (=> (and (p x0) (< x1 x0)) (p x1))))\n\
(assert (forall ((x0 Int)) (=> (and (p x0) (< x0 0)) false)))\n\
(check-sat)\n\
\")\n\
";

// A script with the greatest numeral.
const GREATEST: &[u8] =
    b"(set-logic HORN)(assert (< 0 170141183460469231731687303715884105727))(check-sat)";

const GREATEST_OUT: &[u8] = b"(set-logic HORN)\n\
(assert (=> (not (< 0 170141183460469231731687303715884105727)) false))\n\
(check-sat)\n\
";

const GREATEST_TRACE: &[u8] = b"(chc-trace 1)\n\
(source \"f7e23166df49dee60376344a8ef671d9ed1bd623ffeaee18745eba36fc1f09a6\")\n\
(target \"(set-logic HORN)\n\
(assert (=> (not (< 0 170141183460469231731687303715884105727)) false))\n\
(check-sat)\n\
\")\n\
";

fn words(alloc: Global, texts: &[&str]) -> Result<Vec<Word>, NoMemory> {
    let mut words = Vec::new(alloc);
    for text in texts {
        words.push(Word::from_text(alloc, text)?)?;
    }
    Ok(words)
}

fn normalise_files<F: Files>(
    alloc: Global,
    files: &mut F,
    say: &mut MemSink,
) -> Result<Status, NoMemory> {
    let words = words(alloc, &["normalise", "script", "out", "trace"])?;
    Ok(run(alloc, words.as_slice(), files, say))
}

#[test]
fn first_run(rt: HostRuntime) -> Result<(), Fail> {
    let alloc = rt.alloc();
    let mut files = MemFiles::new(alloc, 1_000_000);
    files.hold("script", SCRIPT)?;
    let mut say = MemSink::new(alloc, 1_000)?;
    let status = normalise_files(alloc, &mut files, &mut say)?;
    assert_eq!(rt; status.code(), 0);
    assert_eq!(rt; files.held("out"), Some(OUT));
    assert_eq!(rt; files.held("trace"), Some(TRACE));
    assert_eq!(rt; say.taken(), LINE);
    Ok(())
}

#[test]
fn first_run_in_pieces(rt: HostRuntime) -> Result<(), Fail> {
    let alloc = rt.alloc();
    let mut files = QuietFiles::new(alloc, 100);
    files.hold("script", SCRIPT)?;
    let mut say = MemSink::new(alloc, 5)?;
    let status = normalise_files(alloc, &mut files, &mut say)?;
    assert_eq!(rt; status.code(), 0);
    assert_eq!(rt; files.held("out"), Some(OUT));
    assert_eq!(rt; files.held("trace"), Some(TRACE));
    assert_eq!(rt; say.taken(), b"norma".as_slice());
    Ok(())
}

#[test]
fn bytes_of_first_run(rt: HostRuntime) -> Result<(), Fail> {
    let alloc = rt.alloc();
    let made = normalise(alloc, SCRIPT)
        .ok()
        .expect(&rt, "a script that is read");
    assert_eq!(rt; made.out.bytes(), OUT);
    assert_eq!(rt; made.trace.bytes(), TRACE);
    assert_eq!(rt; (made.before, made.after, made.steps), (5, 3, 2));
    let refused = normalise(alloc, b"");
    assert!(rt; matches!(refused, Err(TextErr::At(_))));
    Ok(())
}

// Whether words are answered with the usage line, and a file that would be read or written stays.
fn is_usage(alloc: Global, texts: &[&str]) -> Result<bool, NoMemory> {
    let words = words(alloc, texts)?;
    let mut files = MemFiles::new(alloc, 100);
    files.hold("a", SCRIPT)?;
    let mut say = MemSink::new(alloc, 1_000)?;
    let status = run(alloc, words.as_slice(), &mut files, &mut say);
    let line = say.taken()
        == b"usage: chc normalise SCRIPT OUT TRACE | chc lift SCRIPT TRACE ANSWER OUT\n".as_slice();
    Ok(line && status.code() == 1 && files.held("b").is_none())
}

#[test]
fn no_words(rt: HostRuntime) -> Result<(), Fail> {
    let alloc = rt.alloc();
    assert!(rt; is_usage(alloc, &[])?);
    assert!(rt; is_usage(alloc, &["normalise", "a", "b", "b"])?);
    assert!(rt; is_usage(alloc, &["normalise", "a", "a", "b"])?);
    assert!(rt; is_usage(alloc, &["lift", "a", "b", "c"])?);
    assert!(rt; is_usage(alloc, &["lift", "a", "a", "a", "a"])?);
    assert!(rt; is_usage(alloc, &["lift", "c", "a", "c", "a"])?);
    assert!(rt; is_usage(alloc, &["lift", "c", "c", "a", "a"])?);
    assert!(rt; is_usage(alloc, &["normalise", "a", "b", "c", "d"])?);
    Ok(())
}

#[test]
fn second_read_fails(rt: HostRuntime) -> Result<(), Fail> {
    let alloc = rt.alloc();
    let mut files = MemFiles::new(alloc, 1_000_000);
    files.hold("script", SCRIPT)?;
    files.fail_at(1)?;
    let mut say = MemSink::new(alloc, 1_000)?;
    let status = normalise_files(alloc, &mut files, &mut say)?;
    assert_eq!(rt; status.code(), 8);
    assert_eq!(rt; say.taken(), b"cannot read word 1\n".as_slice());
    assert_eq!(rt; files.held("out"), None);
    assert_eq!(rt; files.held("trace"), None);
    Ok(())
}

#[test]
fn trace_fails(rt: HostRuntime) -> Result<(), Fail> {
    let alloc = rt.alloc();
    let mut files = MemFiles::new(alloc, 1_000_000);
    files.hold("script", SCRIPT)?;
    files.fail_at(4)?;
    let mut say = MemSink::new(alloc, 1_000)?;
    let status = normalise_files(alloc, &mut files, &mut say)?;
    assert_eq!(rt; status.code(), 9);
    assert_eq!(rt; say.taken(), b"cannot write word 3\n".as_slice());
    assert_eq!(rt; files.held("out"), Some(OUT));
    Ok(())
}

// Whether `normalise` refuses this script with this line, and writes nothing.
fn refuses_script(alloc: Global, script: &[u8], line: &[u8]) -> Result<bool, NoMemory> {
    let mut files = MemFiles::new(alloc, 1_000_000);
    files.hold("script", script)?;
    let mut say = MemSink::new(alloc, 1_000)?;
    let status = normalise_files(alloc, &mut files, &mut say)?;
    let nothing = files.held("out").is_none() && files.held("trace").is_none();
    Ok(status.code() == 2 && nothing && say.taken() == line)
}

// Whether `normalise` makes these texts of the script, and says this line.
fn normalises(
    alloc: Global,
    script: &[u8],
    out: &[u8],
    trace: &[u8],
    line: &[u8],
) -> Result<bool, NoMemory> {
    let mut files = MemFiles::new(alloc, 1_000_000);
    files.hold("script", script)?;
    let mut say = MemSink::new(alloc, 1_000)?;
    let status = normalise_files(alloc, &mut files, &mut say)?;
    let made = files.held("out") == Some(out) && files.held("trace") == Some(trace);
    Ok(status.code() == 0 && made && say.taken() == line)
}

#[test]
fn parallel_let(rt: HostRuntime) -> Result<(), Fail> {
    let alloc = rt.alloc();
    let line = b"normalised: clauses 3 to 3, steps 0\n".as_slice();
    assert!(rt; normalises(alloc, PARALLEL, PARALLEL_OUT, PARALLEL_TRACE, line)?);
    Ok(())
}

// So many bytes.
fn repeated(alloc: Global, byte: u8, times: usize) -> Result<ByteText, NoMemory> {
    let mut text = ByteText::new(alloc);
    for _ in 0..times {
        text.push(byte)?;
    }
    Ok(text)
}

#[test]
fn greatest_numeral(rt: HostRuntime) -> Result<(), Fail> {
    let alloc = rt.alloc();
    let line = b"normalised: clauses 1 to 1, steps 0\n".as_slice();
    assert!(rt; normalises(alloc, GREATEST, GREATEST_OUT, GREATEST_TRACE, line)?);
    let past = exchanged(alloc, GREATEST, b"727)", b"728)")?;
    let line = b"script refused at 29: NumeralTooLarge\n".as_slice();
    assert!(rt; refuses_script(alloc, past.bytes(), line)?);
    Ok(())
}

#[test]
fn script_faults(rt: HostRuntime) -> Result<(), Fail> {
    let alloc = rt.alloc();
    let endless =
        b"(set-logic HORN)(declare-datatypes ((T 0)) (((mk (f T)))))(check-sat)".as_slice();
    assert!(rt; refuses_script(alloc, endless, b"script refused at 16: NotWellFounded T\n")?);
    let index = b"(set-logic HORN)(declare-fun p ((Array Bool Int)) Bool)(check-sat)".as_slice();
    assert!(rt; refuses_script(alloc, index, b"script refused at 32: ArrayIndex\n")?);
    let unclosed = b"(set-logic HORN)(declare-fun |ab".as_slice();
    assert!(rt; refuses_script(alloc, unclosed, b"script refused at 29: OpenQuoted\n")?);
    Ok(())
}

#[test]
fn names_of_faults(rt: HostRuntime) -> Result<(), Fail> {
    let alloc = rt.alloc();
    let quoted = b"(set-logic HORN)(assert |a b|)(check-sat)".as_slice();
    assert!(rt; refuses_script(alloc, quoted, b"script refused at 24: UnknownName |a b|\n")?);
    let empty = b"(set-logic HORN)(assert ||)(check-sat)".as_slice();
    assert!(rt; refuses_script(alloc, empty, b"script refused at 24: UnknownName ||\n")?);
    let other = b"(set-logic QF_LIA)(check-sat)".as_slice();
    assert!(rt; refuses_script(alloc, other, b"script refused at 0: OtherLogic QF_LIA\n")?);
    Ok(())
}

#[test]
fn depth_of_script(rt: HostRuntime) -> Result<(), Fail> {
    let alloc = rt.alloc();
    let deeper = repeated(alloc, b'(', 1001)?;
    assert!(rt; refuses_script(alloc, deeper.bytes(), b"script refused at 1000: TooDeep\n")?);
    let mut deepest = repeated(alloc, b'(', 1000)?;
    assert!(rt;
        refuses_script(
            alloc,
            deepest.bytes(),
            b"script refused at 999: OpenParen\n"
        )?
    );
    let closing = repeated(alloc, b')', 1000)?;
    deepest.extend(closing.bytes())?;
    assert!(rt; refuses_script(alloc, deepest.bytes(), b"script refused at 0: BadCommand\n")?);
    Ok(())
}

// Files that hold a script, a trace and an answer, of which `lift` makes something in the file `out`.
fn lift_files(
    alloc: Global,
    script: &[u8],
    trace: &[u8],
    answer: &[u8],
) -> Result<MemFiles, NoMemory> {
    let mut files = MemFiles::new(alloc, 1_000_000);
    files.hold("script", script)?;
    files.hold("trace", trace)?;
    files.hold("answer", answer)?;
    Ok(files)
}

fn run_lift(alloc: Global, files: &mut MemFiles, say: &mut MemSink) -> Result<Status, NoMemory> {
    let words = words(alloc, &["lift", "script", "trace", "answer", "out"])?;
    Ok(run(alloc, words.as_slice(), files, say))
}

// Whether `lift` makes this text of the inputs, and says this line.
fn lifts_of(
    alloc: Global,
    script: &[u8],
    trace: &[u8],
    answer: &[u8],
    out: &[u8],
    line: &[u8],
) -> Result<bool, NoMemory> {
    let mut files = lift_files(alloc, script, trace, answer)?;
    let mut say = MemSink::new(alloc, 1_000)?;
    let status = run_lift(alloc, &mut files, &mut say)?;
    let same = files.held("script") == Some(script) && files.held("trace") == Some(trace);
    let held = files.held("out") == Some(out);
    Ok(status.code() == 0 && same && held && say.taken() == line)
}

// Whether `lift` makes this text of the example's script and these inputs, and says this line.
fn lifts(
    alloc: Global,
    trace: &[u8],
    answer: &[u8],
    out: &[u8],
    line: &[u8],
) -> Result<bool, NoMemory> {
    lifts_of(alloc, SCRIPT, trace, answer, out, line)
}

#[test]
fn parallel_let_model(rt: HostRuntime) -> Result<(), Fail> {
    let alloc = rt.alloc();
    let answer =
        b"sat (model (define-fun p ((x Int)) Bool (exists ((x Int)) (< x 0))))\n".as_slice();
    let out = b"sat\n\
(\n\
(define-fun p ((x0 Int)) Bool (exists ((x1 Int)) (< x1 0)))\n\
)\n\
"
        .as_slice();
    let line = b"lifted: sat, definitions 1\n".as_slice();
    assert!(rt; lifts_of(alloc, PARALLEL, PARALLEL_TRACE, answer, out, line)?);
    Ok(())
}

#[test]
fn first_run_model(rt: HostRuntime) -> Result<(), Fail> {
    let alloc = rt.alloc();
    assert!(rt; lifts(alloc, TRACE, ANSWER, LIFTED, LIFTED_LINE)?);
    Ok(())
}

#[test]
fn steps_exchanged(rt: HostRuntime) -> Result<(), Fail> {
    let alloc = rt.alloc();
    let out = b"sat\n\
(\n\
(define-fun inv ((x0 Int)) Bool (<= x0 10))\n\
(define-fun dead ((x0 Int)) Bool false)\n\
(define-fun log ((x0 Int)) Bool true)\n\
)\n\
"
        .as_slice();
    assert!(rt; lifts(alloc, EXCHANGED, ANSWER, out, LIFTED_LINE)?);
    Ok(())
}

// A text with a part of it exchanged.
fn exchanged(alloc: Global, text: &[u8], part: &[u8], by: &[u8]) -> Result<ByteText, NoMemory> {
    let mut made = ByteText::new(alloc);
    let mut skipped = 0;
    for i in 0..text.len() {
        if skipped > 0 {
            skipped -= 1;
        } else if text[i..].starts_with(part) {
            made.extend(by)?;
            skipped = part.len().saturating_sub(1);
        } else {
            made.push(text[i])?;
        }
    }
    Ok(made)
}

// Whether `lift` refuses the inputs with this status and line, and writes nothing.
fn refuses(
    alloc: Global,
    script: &[u8],
    trace: &[u8],
    answer: &[u8],
    code: u8,
    line: &[u8],
) -> Result<bool, NoMemory> {
    let mut files = lift_files(alloc, script, trace, answer)?;
    let mut say = MemSink::new(alloc, 1_000)?;
    let status = run_lift(alloc, &mut files, &mut say)?;
    let same = files.held("script") == Some(script) && files.held("trace") == Some(trace);
    let kept = files.held("answer") == Some(answer) && files.held("out").is_none();
    Ok(status.code() == code && same && kept && say.taken() == line)
}

#[test]
fn no_steps(rt: HostRuntime) -> Result<(), Fail> {
    let alloc = rt.alloc();
    let trace = b"(chc-trace 1)\n\
(source \"d8b9e70e4d8590085fd70eb8bb91b8e2369f283624520f485eea48af6dd90792\")\n\
(target \"(set-logic HORN)\n\
(declare-fun inv (Int) Bool)\n\
(declare-fun log (Int) Bool)\n\
(declare-fun dead (Int) Bool)\n\
(assert (forall ((x0 Int)) (=> (<= x0 0) (inv x0))))\n\
(assert (forall ((x0 Int) (x1 Int)) (=> (and (inv x0) (< x0 10) (<= x0 x1) (<= x1 (+ x0 1))) (inv x1))))\n\
(assert (forall ((x0 Int)) (=> (inv x0) (log x0))))\n\
(assert (forall ((x0 Int) (x1 Int)) (=> (and (dead x0) (inv x1)) (inv x0))))\n\
(assert (forall ((x0 Int)) (=> (and (inv x0) (< 20 x0)) false)))\n\
(check-sat)\n\
\")\n\
"
        .as_slice();
    let answer = b"sat (model (define-fun dead ((a Int)) Bool false)\n\
(define-fun inv ((a Int)) Bool (<= a 10)) (define-fun log ((b Int)) Bool (< 0 1)))\n"
        .as_slice();
    let out = b"sat\n\
(\n\
(define-fun dead ((x0 Int)) Bool false)\n\
(define-fun inv ((x0 Int)) Bool (<= x0 10))\n\
(define-fun log ((x0 Int)) Bool (< 0 1))\n\
)\n\
"
        .as_slice();
    assert!(rt; lifts(alloc, trace, answer, out, LIFTED_LINE)?);
    Ok(())
}

// Whether this script and this trace are refused beside the example's answer.
fn refuses_trace(
    alloc: Global,
    script: &[u8],
    trace: &ByteText,
    code: u8,
    line: &[u8],
) -> Result<bool, NoMemory> {
    refuses(alloc, script, trace.bytes(), ANSWER, code, line)
}

#[test]
fn foreign_source(rt: HostRuntime) -> Result<(), Fail> {
    let alloc = rt.alloc();
    let line = b"foreign trace: source\n".as_slice();
    let script = exchanged(alloc, SCRIPT, b"20", b"30")?;
    assert!(rt; refuses(alloc, script.bytes(), TRACE, ANSWER, 4, line)?);
    let trace = exchanged(alloc, TRACE, b"d8b9", b"d8b8")?;
    assert!(rt; refuses_trace(alloc, SCRIPT, &trace, 4, line)?);
    Ok(())
}

#[test]
fn foreign_steps(rt: HostRuntime) -> Result<(), Fail> {
    let alloc = rt.alloc();
    let target = b"foreign trace: target\n".as_slice();
    let step = b"foreign trace: step 1\n".as_slice();
    let left_out = exchanged(alloc, TRACE, b"(step unneeded 1)\n", b"")?;
    assert!(rt; refuses_trace(alloc, SCRIPT, &left_out, 4, target)?);
    let twice = b"(step unreached 2) (step unreached 2)\n".as_slice();
    let doubled = exchanged(alloc, TRACE, b"(step unreached 2)\n", twice)?;
    assert!(rt; refuses_trace(alloc, SCRIPT, &doubled, 4, step)?);
    let too_many = exchanged(alloc, TRACE, b"unneeded 1", b"unneeded 0 1")?;
    assert!(rt; refuses_trace(alloc, SCRIPT, &too_many, 4, step)?);
    let other_target = exchanged(alloc, TRACE, b"(< 20", b"(< 21")?;
    assert!(rt; refuses_trace(alloc, SCRIPT, &other_target, 4, target)?);
    Ok(())
}

#[test]
fn unread_texts(rt: HostRuntime) -> Result<(), Fail> {
    let alloc = rt.alloc();
    assert!(rt; refuses(alloc, b"", b"", b"", 2, b"script refused at 0: NoLogic\n")?);
    assert!(rt;
        refuses(
            alloc,
            SCRIPT,
            b"",
            ANSWER,
            3,
            b"trace refused at 0: BadForm\n"
        )?
    );
    let open = exchanged(alloc, TRACE, b"\")\n", b"\n")?;
    assert!(rt; refuses_trace(alloc, SCRIPT, &open, 3, b"trace refused at 14: OpenParen\n")?);
    let other_kind = exchanged(alloc, TRACE, b"unneeded", b"unwanted")?;
    let line = b"trace refused at 109: BadForm\n".as_slice();
    assert!(rt; refuses_trace(alloc, SCRIPT, &other_kind, 3, line)?);
    Ok(())
}

// Whether this answer is refused with this line beside the example's script and trace.
fn refuses_answer(alloc: Global, answer: &[u8], line: &[u8]) -> Result<bool, NoMemory> {
    refuses(alloc, SCRIPT, TRACE, answer, 5, line)
}

#[test]
fn forms_of_answers(rt: HostRuntime) -> Result<(), Fail> {
    let alloc = rt.alloc();
    assert!(rt; refuses_answer(alloc, b"", b"answer refused at 0: NotAnswer\n")?);
    assert!(rt; refuses_answer(alloc, b" unknown", b"answer refused at 1: NotAnswer\n")?);
    assert!(rt; refuses_answer(alloc, b"sat", b"answer refused at 3: BadForm\n")?);
    assert!(rt; refuses_answer(alloc, b"sat ((a)", b"answer refused at 4: OpenParen\n")?);
    Ok(())
}

#[test]
fn refused_definitions(rt: HostRuntime) -> Result<(), Fail> {
    let alloc = rt.alloc();
    assert!(rt; refuses_answer(alloc, b"sat ()", b"answer refused at 6: Missing inv\n")?);
    let over_bool = b"sat ((define-fun inv ((a Bool)) Bool a))".as_slice();
    assert!(rt; refuses_answer(alloc, over_bool, b"answer refused at 5: WrongParams inv\n")?);
    let twice = exchanged(
        alloc,
        ANSWER,
        b"))\n",
        b") (define-fun inv ((a Int)) Bool true))",
    )?;
    assert!(rt; refuses_answer(alloc, twice.bytes(), b"answer refused at 47: Twice inv\n")?);
    Ok(())
}

// Refutations aren't read yet.
#[test]
fn refutation_answer(rt: HostRuntime) -> Result<(), Fail> {
    let alloc = rt.alloc();
    let refutation = b"; no model\nunsat (step 0 () ())".as_slice();
    assert!(rt; refuses_answer(alloc, refutation, b"answer refused at 11: NotYet\n")?);
    let open = b"unsat (step 0 () ()".as_slice();
    assert!(rt; refuses_answer(alloc, open, b"answer refused at 6: OpenParen\n")?);
    Ok(())
}

#[test]
fn third_input_fails(rt: HostRuntime) -> Result<(), Fail> {
    let alloc = rt.alloc();
    let mut files = lift_files(alloc, SCRIPT, TRACE, ANSWER)?;
    files.fail_at(4)?;
    let mut say = MemSink::new(alloc, 1_000)?;
    let status = run_lift(alloc, &mut files, &mut say)?;
    assert_eq!(rt; status.code(), 8);
    assert_eq!(rt; say.taken(), b"cannot read word 3\n".as_slice());
    assert_eq!(rt; files.held("out"), None);
    Ok(())
}
