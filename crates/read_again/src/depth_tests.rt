//! Formulas that the connectives of the printed line make too deep.

use crate::{AgainErr, read_again};
use chc_script::{Script, read_script};
use chc_sexpr::Fault;
use chc_sorts::NoMemory;
use chc_source::ByteText;
use std::alloc::Global;

/// The text several times.
fn times(text: &mut ByteText, count: usize, part: &[u8]) -> Result<(), NoMemory> {
    for _ in 0..count {
        text.extend(part)?;
    }
    Ok(())
}

/// A script with the query that `x` is no sum of itself, nested so many times. Its assertion is four levels deeper.
fn nested_sums(alloc: Global, count: usize) -> Result<ByteText, NoMemory> {
    let mut text = ByteText::new(alloc);
    text.extend(b"(set-logic HORN)(assert (forall ((x Int)) (not (= x ")?;
    times(&mut text, count, b"(+ x ")?;
    text.extend(b"x")?;
    times(&mut text, count, b")")?;
    text.extend(b"))))(check-sat)")?;
    Ok(text)
}

fn script_of_sums(alloc: Global, count: usize) -> Option<Script> {
    let text = nested_sums(alloc, count).ok()?;
    if text.len() > 65_536 {
        return None;
    }
    read_script(alloc, text.bytes()).ok()
}

/// Whether the text of the script of so many sums is read again, or refused as too deep.
fn is_read_again(alloc: Global, count: usize) -> Option<bool> {
    let script = script_of_sums(alloc, count)?;
    match read_again(alloc, &script) {
        Ok(_) => Some(true),
        Err(AgainErr::Refused(fault)) => match fault.fault {
            Fault::TooDeep => Some(false),
            _ => None,
        },
        Err(_) => None,
    }
}

#[test]
fn a_formula_of_900_levels_is_read_again(rt: HostRuntime) {
    assert!(rt; is_read_again(rt.alloc(), 895) == Some(true));
}

#[test]
fn a_formula_that_would_have_901_levels_is_refused(rt: HostRuntime) {
    assert!(rt; is_read_again(rt.alloc(), 896) == Some(false));
}

#[test]
fn a_script_of_901_levels_is_refused_itself(rt: HostRuntime) {
    assert!(rt; script_of_sums(rt.alloc(), 897).is_none());
}
