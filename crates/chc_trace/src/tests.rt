//! Texts of traces that are read and printed, first faults of texts that say no trace, and a digest.

use crate::{Trace, digest, read_trace, trace_text};
use chc_sexpr::TextErr;
use chc_sorts::{List, NoMemory};
use chc_source::ByteText;
use chc_state::Step;
use std::alloc::Global;

/// The largest length of a text that is read.
const MOST: usize = 4294967295;

/// A mark and a source, whose digest is that of `abc`, as FIPS 180 gives it. They take 90 bytes.
const FRONT: &[u8] =
    b"(chc-trace 1)\n(source \"ba7816bf8f01cfea414140de5dae2223b00361a396177a9cb410ff61f20015ad\")\n";

/// A list of one number.
fn one(alloc: Global, n: u32) -> Result<List<u32>, NoMemory> {
    let mut numbers = List::new(alloc);
    numbers.push(n)?;
    Ok(numbers)
}

/// A trace of three steps, whose target has quotes in it.
fn example(alloc: Global) -> Result<Trace, NoMemory> {
    let mut preds = one(alloc, 1)?;
    preds.push(4294967295)?;
    let mut steps = List::new(alloc);
    steps.push(Step::Unreached(preds))?;
    steps.push(Step::Void(12))?;
    steps.push(Step::Unneeded(one(alloc, 2)?))?;
    let mut target = ByteText::new(alloc);
    target.extend(b"a \"\"b\"\n")?;
    Ok(Trace {
        source: digest(b"abc"),
        steps,
        target,
    })
}

/// The text of that trace.
fn example_text(alloc: Global) -> Result<ByteText, NoMemory> {
    trace_text(alloc, &example(alloc)?)
}

/// Whether a trace has the parts of the example.
fn is_example(t: &Trace) -> bool {
    let steps = match t.steps.as_slice() {
        [Step::Unreached(a), Step::Void(12), Step::Unneeded(b)] => {
            matches!(a.as_slice(), [1, 4294967295]) && matches!(b.as_slice(), [2])
        }
        _ => false,
    };
    steps
        && t.source.as_slice() == digest(b"abc").as_slice()
        && t.target.bytes() == b"a \"\"b\"\n".as_slice()
}

/// What a text of fit length is read as.
fn read(alloc: Global, bytes: &[u8]) -> Result<Trace, TextErr> {
    if bytes.len() > MOST {
        return Err(TextErr::NoMemory);
    }
    read_trace(alloc, bytes)
}

/// Whether the text of the example is read as the example.
fn is_read_again(alloc: Global) -> Result<bool, NoMemory> {
    let text = example_text(alloc)?;
    match read(alloc, text.bytes()) {
        Ok(t) => Ok(is_example(&t)),
        Err(_) => Ok(false),
    }
}

/// Tells what the reading of a text answers: the text of the trace, or the first fault with its place and name.
fn told(alloc: Global, text: &[u8]) -> Result<ByteText, NoMemory> {
    match read(alloc, text) {
        Ok(trace) => trace_text(alloc, &trace),
        Err(TextErr::At(fault)) => {
            let place = fault.place;
            let mut out = ByteText::new(alloc);
            out.extend(format!(in alloc; "{place} ")?.as_bytes())?;
            out.extend(fault.fault.name())?;
            out.push(b' ')?;
            out.extend(fault.name.bytes())?;
            Ok(out)
        }
        Err(TextErr::NoMemory) => Err(NoMemory),
    }
}

/// Two texts side by side.
fn joined(alloc: Global, front: &[u8], rest: &[u8]) -> Result<ByteText, NoMemory> {
    let mut text = ByteText::new(alloc);
    text.extend(front)?;
    text.extend(rest)?;
    Ok(text)
}

/// Whether the text, behind the mark and the source, is told so, or `None` where memory was refused.
fn is_told(alloc: Global, rest: &[u8], wanted: &[u8]) -> Option<bool> {
    let text = joined(alloc, FRONT, rest).ok()?;
    let out = told(alloc, text.bytes()).ok()?;
    Some(out.bytes() == wanted)
}

/// Whether the text behind the mark and the source says a trace, which is printed so behind them.
fn is_printed(alloc: Global, rest: &[u8], wanted: &[u8]) -> Option<bool> {
    let wanted = joined(alloc, FRONT, wanted).ok()?;
    is_told(alloc, rest, wanted.bytes())
}

/// Whether the text, from its front on, is told so.
fn is_whole_told(alloc: Global, text: &[u8], wanted: &[u8]) -> Option<bool> {
    let out = told(alloc, text).ok()?;
    Some(out.bytes() == wanted)
}

#[test]
fn the_text_of_a_trace(rt: HostRuntime) {
    let wanted =
        b"(chc-trace 1)\n(source \"ba7816bf8f01cfea414140de5dae2223b00361a396177a9cb410ff61f20015ad\")\n(step unreached 1 4294967295)\n(step void 12)\n(step unneeded 2)\n(target \"a \"\"\"\"b\"\"\n\")\n".as_slice();
    match example_text(rt.alloc()) {
        Ok(text) => assert!(rt; text.bytes() == wanted),
        Err(_) => assert!(rt; false),
    }
}

#[test]
fn the_text_of_a_trace_is_read_again(rt: HostRuntime) {
    assert!(rt; is_read_again(rt.alloc()) == Ok(true));
}

#[test]
fn traces_are_read_and_printed(rt: HostRuntime) {
    let rows = [
        (b"(target \"\")".as_slice(), b"(target \"\")\n".as_slice()),
        (
            b"(target \"(check-sat)\"\"\n\") ; the end".as_slice(),
            b"(target \"(check-sat)\"\"\n\")\n".as_slice(),
        ),
        (
            b"(step void 0)(target \"\")".as_slice(),
            b"(step void 0)\n(target \"\")\n".as_slice(),
        ),
        (
            b"(step void 4294967295)(step unreached)(target \"\")".as_slice(),
            b"(step void 4294967295)\n(step unreached)\n(target \"\")\n".as_slice(),
        ),
        (
            b"(step unneeded 2 1 1 4294967295)(target \"\")".as_slice(),
            b"(step unneeded 2 1 1 4294967295)\n(target \"\")\n".as_slice(),
        ),
        (
            b"(step unneeded 0)(step void 3)(step unreached 0)(step unneeded 0)(target \"\")".as_slice(),
            b"(step unneeded 0)\n(step void 3)\n(step unreached 0)\n(step unneeded 0)\n(target \"\")\n".as_slice(),
        ),
        (
            b"\n; a step\n( |step|\n\tunreached ; 7\n 1)\r\n(target\n\"\")\n".as_slice(),
            b"(step unreached 1)\n(target \"\")\n".as_slice(),
        ),
        (
            b"(step |void| 3)(|target| \"\")".as_slice(),
            b"(step void 3)\n(target \"\")\n".as_slice(),
        ),
    ];
    for (text, wanted) in rows {
        assert!(rt;
            is_printed(rt.alloc(), text, wanted) == Some(true),
            "at {}",
            text.len()
        );
    }
}

#[test]
fn first_faults_behind_the_source(rt: HostRuntime) {
    let rows = [
        (b"".as_slice(), b"90 BadForm ".as_slice()),
        (b"(step unreached 1)".as_slice(), b"108 BadForm ".as_slice()),
        (
            b"(step void 1) ; the end\n".as_slice(),
            b"114 BadForm ".as_slice(),
        ),
        (
            b"(target \"\")(target \"\")".as_slice(),
            b"101 BadForm ".as_slice(),
        ),
        (b"(target \"\") 1".as_slice(), b"102 BadForm ".as_slice()),
        (
            b"(target \"\")\n(step unreached 1)".as_slice(),
            b"102 BadForm ".as_slice(),
        ),
        (b"(target \"\" \"\")".as_slice(), b"90 BadForm ".as_slice()),
        (b"(target)".as_slice(), b"90 BadForm ".as_slice()),
        (b"(target a)".as_slice(), b"90 BadForm ".as_slice()),
        (b"(target |a|)".as_slice(), b"90 BadForm ".as_slice()),
        (b" \"\"".as_slice(), b"91 BadForm ".as_slice()),
        (b"()(target \"\")".as_slice(), b"90 BadForm ".as_slice()),
        (
            b"(source \"ba7816bf8f01cfea414140de5dae2223b00361a396177a9cb410ff61f20015ad\")(target \"\")".as_slice(),
            b"90 BadForm ".as_slice(),
        ),
        (
            b"(chc-trace 1)(target \"\")".as_slice(),
            b"90 BadForm ".as_slice(),
        ),
        (b"(Target \"\")".as_slice(), b"90 BadForm ".as_slice()),
    ];
    for (text, wanted) in rows {
        assert!(rt;
            is_told(rt.alloc(), text, wanted) == Some(true),
            "at {}",
            text.len()
        );
    }
}

#[test]
fn first_faults_of_steps(rt: HostRuntime) {
    let rows = [
        (
            b"(step void 7)\n(unreached 1) (step void) (target \"\")".as_slice(),
            b"104 BadForm ".as_slice(),
        ),
        (
            b"(step void 7)\nstep (step void) (target \"\")".as_slice(),
            b"104 BadForm ".as_slice(),
        ),
        (
            b"(step void 7)\n(step) (step void) (target \"\")".as_slice(),
            b"104 BadForm ".as_slice(),
        ),
        (
            b"(step void 7)\n(step 1) (step void) (target \"\")".as_slice(),
            b"104 BadForm ".as_slice(),
        ),
        (
            b"(step void 7)\n(step unread 1) (step void) (target \"\")".as_slice(),
            b"104 BadForm ".as_slice(),
        ),
        (
            b"(step void 7)\n(step \"unreached\" 1) (step void) (target \"\")".as_slice(),
            b"104 BadForm ".as_slice(),
        ),
        (
            b"(step void 7)\n(step :unreached 1) (step void) (target \"\")".as_slice(),
            b"104 BadForm ".as_slice(),
        ),
        (
            b"(step void 7)\n(step let 1) (step void) (target \"\")".as_slice(),
            b"104 BadForm ".as_slice(),
        ),
        (
            b"(step void 7)\n(step (unreached) 1) (step void) (target \"\")".as_slice(),
            b"104 BadForm ".as_slice(),
        ),
        (
            b"(step void 7)\n(step unreached unneeded 1) (step void) (target \"\")".as_slice(),
            b"104 BadForm ".as_slice(),
        ),
        (
            b"(step void 7)\n(step unreached (1)) (step void) (target \"\")".as_slice(),
            b"104 BadForm ".as_slice(),
        ),
        (
            b"(step void 7)\n(step unreached 4294967296) (step void) (target \"\")".as_slice(),
            b"104 BadForm ".as_slice(),
        ),
        (
            b"(step void 7)\n(step unreached -1) (step void) (target \"\")".as_slice(),
            b"104 BadForm ".as_slice(),
        ),
        (
            b"(step void 7)\n(step unreached (- 1)) (step void) (target \"\")".as_slice(),
            b"104 BadForm ".as_slice(),
        ),
        (
            b"(step void 7)\n(step unreached 1.0) (step void) (target \"\")".as_slice(),
            b"104 BadForm ".as_slice(),
        ),
        (
            b"(step void 7)\n(step unreached #x1) (step void) (target \"\")".as_slice(),
            b"104 BadForm ".as_slice(),
        ),
        (
            b"(step void 7)\n(step unreached \"1\") (step void) (target \"\")".as_slice(),
            b"104 BadForm ".as_slice(),
        ),
        (
            b"(step void 7)\n(step void) (step void) (target \"\")".as_slice(),
            b"104 BadForm ".as_slice(),
        ),
        (
            b"(step void 7)\n(step void 1 2) (step void) (target \"\")".as_slice(),
            b"104 BadForm ".as_slice(),
        ),
        (
            b"(step void 7)\n(step void 4294967296) (step void) (target \"\")".as_slice(),
            b"104 BadForm ".as_slice(),
        ),
        (
            b"(step void 7)\n(step void a) (step void) (target \"\")".as_slice(),
            b"104 BadForm ".as_slice(),
        ),
        (
            b"(step void 7)\n(step void (1)) (step void) (target \"\")".as_slice(),
            b"104 BadForm ".as_slice(),
        ),
        (
            b"(step void 7)\n(step Void 1) (step void) (target \"\")".as_slice(),
            b"104 BadForm ".as_slice(),
        ),
        (
            b"(step void 7)\n(step voids 1) (step void) (target \"\")".as_slice(),
            b"104 BadForm ".as_slice(),
        ),
        (
            b"(step void 7)\n(step one-queries) (step void) (target \"\")".as_slice(),
            b"104 BadForm ".as_slice(),
        ),
        (
            b"(step void 7)\n(Step void 1) (step void) (target \"\")".as_slice(),
            b"104 BadForm ".as_slice(),
        ),
    ];
    for (text, wanted) in rows {
        assert!(rt;
            is_told(rt.alloc(), text, wanted) == Some(true),
            "at {}",
            text.len()
        );
    }
}

#[test]
fn faults_of_tokens_come_first(rt: HostRuntime) {
    let rows = [
        (
            b"(step voids 1)(step unreached 01)(target \"\")".as_slice(),
            b"120 LeadingZero ".as_slice(),
        ),
        (
            b"(step voids 1)(target \"".as_slice(),
            b"112 OpenString ".as_slice(),
        ),
        (
            b"(step voids 1)(target \"\"".as_slice(),
            b"104 OpenParen ".as_slice(),
        ),
        (
            b"(step voids 1)(target \"\"))".as_slice(),
            b"115 StrayParen ".as_slice(),
        ),
        (
            b"(step void 170141183460469231731687303715884105728)(target \"\")".as_slice(),
            b"101 NumeralTooLarge ".as_slice(),
        ),
    ];
    for (text, wanted) in rows {
        assert!(rt;
            is_told(rt.alloc(), text, wanted) == Some(true),
            "at {}",
            text.len()
        );
    }
}

#[test]
fn first_faults_of_marks_and_sources(rt: HostRuntime) {
    let rows = [
        (b"".as_slice(), b"0 BadForm ".as_slice()),
        (b" ; nothing\n".as_slice(), b"11 BadForm ".as_slice()),
        (b"(chc-trace 1)".as_slice(), b"13 BadForm ".as_slice()),
        (
            b"(chc-trace 2)(source \"ba7816bf8f01cfea414140de5dae2223b00361a396177a9cb410ff61f20015ad\")(target \"\")".as_slice(),
            b"0 BadForm ".as_slice(),
        ),
        (
            b"(chc-trace 0)(source \"ba7816bf8f01cfea414140de5dae2223b00361a396177a9cb410ff61f20015ad\")(target \"\")".as_slice(),
            b"0 BadForm ".as_slice(),
        ),
        (
            b"(chc-trace \"1\")(source \"ba7816bf8f01cfea414140de5dae2223b00361a396177a9cb410ff61f20015ad\")(target \"\")".as_slice(),
            b"0 BadForm ".as_slice(),
        ),
        (
            b"(chc-trace 1 1)(source \"ba7816bf8f01cfea414140de5dae2223b00361a396177a9cb410ff61f20015ad\")(target \"\")".as_slice(),
            b"0 BadForm ".as_slice(),
        ),
        (
            b"(chc-trace)(source \"ba7816bf8f01cfea414140de5dae2223b00361a396177a9cb410ff61f20015ad\")(target \"\")".as_slice(),
            b"0 BadForm ".as_slice(),
        ),
        (
            b" (Chc-trace 1)(source \"ba7816bf8f01cfea414140de5dae2223b00361a396177a9cb410ff61f20015ad\")(target \"\")".as_slice(),
            b"1 BadForm ".as_slice(),
        ),
        (
            b"(chc-trace 1)\n(chc-trace 1)(source \"ba7816bf8f01cfea414140de5dae2223b00361a396177a9cb410ff61f20015ad\")(target \"\")".as_slice(),
            b"14 BadForm ".as_slice(),
        ),
        (
            b"(source \"ba7816bf8f01cfea414140de5dae2223b00361a396177a9cb410ff61f20015ad\")(target \"\")".as_slice(),
            b"0 BadForm ".as_slice(),
        ),
        (
            b"(chc-trace 1)(target \"\")".as_slice(),
            b"13 BadForm ".as_slice(),
        ),
        (
            b"(chc-trace 1)(step void 1)(source \"ba7816bf8f01cfea414140de5dae2223b00361a396177a9cb410ff61f20015ad\")(target \"\")".as_slice(),
            b"13 BadForm ".as_slice(),
        ),
        (
            b"(chc-trace 4294967297)(source \"ba7816bf8f01cfea414140de5dae2223b00361a396177a9cb410ff61f20015ad\")(target \"\")".as_slice(),
            b"0 BadForm ".as_slice(),
        ),
        (
            b"(chc-trace 1)(source \"\")(target \"\")".as_slice(),
            b"13 BadForm ".as_slice(),
        ),
        (
            b"(chc-trace 1)(source \"BA7816BF8F01CFEA414140DE5DAE2223B00361A396177A9CB410FF61F20015AD\")(target \"\")".as_slice(),
            b"13 BadForm ".as_slice(),
        ),
        (
            b"(chc-trace 1)(source \"ba7816bf8f01cfea414140de5dae2223b00361a396177a9cb410ff61f20015a\")(target \"\")".as_slice(),
            b"13 BadForm ".as_slice(),
        ),
        (
            b"(chc-trace 1)(source \"ba7816bf8f01cfea414140de5dae2223b00361a396177a9cb410ff61f20015ad0\")(target \"\")".as_slice(),
            b"13 BadForm ".as_slice(),
        ),
        (
            b"(chc-trace 1)(source \"ba7816bf8f01cfea414140de5dae2223b00361a396177a9cb410ff61f20015ad00\")(target \"\")".as_slice(),
            b"13 BadForm ".as_slice(),
        ),
        (
            b"(chc-trace 1)(source \"ga7816bf8f01cfea414140de5dae2223b00361a396177a9cb410ff61f20015ad\")(target \"\")".as_slice(),
            b"13 BadForm ".as_slice(),
        ),
        (
            b"(chc-trace 1)(source \"ba7816bf8f01cfea414140de5dae2223b00361a396177a9cb410ff61f20015aD\")(target \"\")".as_slice(),
            b"13 BadForm ".as_slice(),
        ),
        (
            b"(chc-trace 1)(source \"ba7816bf8f01cfea414140de5dae2223b00361a396177a9cb410ff61f20015ad\" \"\")(target \"\")".as_slice(),
            b"13 BadForm ".as_slice(),
        ),
        (
            b"(chc-trace 1)(source |ba7816bf8f01cfea414140de5dae2223b00361a396177a9cb410ff61f20015ad|)(target \"\")".as_slice(),
            b"13 BadForm ".as_slice(),
        ),
    ];
    for (text, wanted) in rows {
        assert!(rt;
            is_whole_told(rt.alloc(), text, wanted) == Some(true),
            "at {}",
            text.len()
        );
    }
}
