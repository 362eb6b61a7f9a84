//! The reader of texts.

ghost use Rattle.std.specs.Prelude.{◌≡◌, ◌+◌, ◌<◌, ◌^◌, length, drop, slice_index};
ghost use Rattle.std.specs.List.{prefix_len};
ghost use Rattle.chc_sexpr.specs.Tokens.{is_white, is_commented};
ghost use Rattle.chc_sexpr.specs.Drafts.{BeginsToken, StepsOn, Finishes};
ghost use Rattle.chc_sexpr.specs.Spelling.{IsTreeReading, HasOneFault};

use crate::draft::Draft;
use crate::fault::{Fault, TextErr};
use crate::kind::{Kind, run_length};
use crate::token::{Token, fault, read_token};
use crate::tree::Trees;
use std::alloc::Global;

/// How many groups may be open at once.
const MOST_OPEN: usize = 1000;

/// Reads the `(` at the front.
fn read_open(alloc: Global, draft: &mut Draft, place: u64, rest: &[u8]) -> Result<usize, TextErr>
    requires some { 0 < length rest.now }
    requires byte { slice_index rest.now 0 ≡ 40 }
    ensures { StepsOn draft.old draft.new place rest.now result }
{
    if draft.groups.len() >= MOST_OPEN {
        return Err(fault(alloc, place, Fault::TooDeep));
    }
    draft.open(alloc, place)?;
    Ok(1)
}

/// Reads the `)` at the front.
fn read_close(alloc: Global, draft: &mut Draft, place: u64, rest: &[u8]) -> Result<usize, TextErr>
    requires some { 0 < length rest.now }
    requires byte { slice_index rest.now 0 ≡ 41 }
    ensures { StepsOn draft.old draft.new place rest.now result }
{
    if draft.groups.len() == 0 {
        return Err(fault(alloc, place, Fault::StrayParen));
    }
    draft.close(alloc)?;
    Ok(1)
}

/// Reads the token at the front.
fn read_tree(alloc: Global, draft: &mut Draft, place: u64, rest: &[u8]) -> Result<usize, TextErr>
    requires some { 0 < length rest.now }
    requires start { BeginsToken (slice_index rest.now 0) }
    requires fits { place + length rest.now < 2 ^ 64 }
    ensures { StepsOn draft.old draft.new place rest.now result }
{
    let Token { tree, length } = read_token(alloc, place, rest)?;
    draft.add(alloc, tree)?;
    Ok(length)
}

/// Whether a byte is white space.
fn is_white(b: u8) -> bool
    ensures { result ≡ is_white b }
{
    matches!(b, b' ' | b'\n' | b'\r' | b'\t')
}

/// How many bytes the comment at the front takes, without its line feed.
fn comment_length(rest: &[u8]) -> usize
    requires { 0 < length rest.now }
    ensures { result ≡ 1 + prefix_len is_commented (drop 1 rest.now) }
{
    1 + run_length(Kind::Commented, &rest[1..])
}

/// Reads what stands at the front: a byte of white space, a comment, a parenthesis or a token. Gives how many bytes it
/// takes.
fn read_next(alloc: Global, draft: &mut Draft, place: u64, rest: &[u8]) -> Result<usize, TextErr>
    requires some { 0 < length rest.now }
    requires fits { place + length rest.now < 2 ^ 64 }
    ensures { StepsOn draft.old draft.new place rest.now result }
{
    let first = rest[0];
    if is_white(first) {
        return Ok(1);
    }
    match first {
        b';' => Ok(comment_length(rest)),
        b'(' => read_open(alloc, draft, place, rest),
        b')' => read_close(alloc, draft, place, rest),
        _ => read_tree(alloc, draft, place, rest),
    }
}

/// The trees of a draft in which no group is open. Errors: `At` the innermost `(` that is open.
fn finished(alloc: Global, draft: Draft) -> Result<Trees, TextErr>
    ensures { Finishes draft result }
{
    let Draft { mut groups, trees } = draft;
    match groups.pop() {
        Some(group) => Err(fault(alloc, group.place, Fault::OpenParen)),
        None => Ok(trees),
    }
}

/// Reads a text of at most 4,294,967,295 bytes into the trees that it spells. No other trees are spelled by
/// it. Errors: `At` the first fault of a text that spells none; `NoMemory`.
pub fn read_trees(alloc: Global, bytes: &[u8]) -> Result<Trees, TextErr>
    requires { length bytes.now < 2 ^ 32 }
    ensures { IsTreeReading bytes.now result }
{
    let mut draft = Draft::new(alloc);
    let mut at = 0;
    while at < bytes.len() {
        let taken = read_next(alloc, &mut draft, at as u64, &bytes[at..])?;
        at += taken;
    }
    finished(alloc, draft)
}

/// The law that no text has two first faults, so that the one that `read_trees` gives is the only one.
pub fn first_fault_is_one()
    ensures { HasOneFault }
{}
