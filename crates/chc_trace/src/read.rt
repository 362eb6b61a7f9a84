//! Traces from texts.

ghost use Rattle.std.specs.Prelude.{◌≡◌, ◌<◌, ◌^◌, length, IfOk};
ghost use Rattle.chc_sexpr.specs.Readings.{Gives};
ghost use Rattle.chc_trace.specs.Places.{Tells, place_of, wanted_at};
ghost use Rattle.chc_trace.specs.declared.progress.Progress.TheVariants as progress;
ghost use Rattle.chc_trace.specs.Readings.{at_end, digest_of, is_mark, read_on, source_of, step_in, step_of, taken};
ghost use Rattle.chc_trace.specs.Traces.{IsTraceReading};

use crate::kind::told_by;
use crate::place::{bad_form, fitting};
use crate::progress::Progress;
use crate::shape::{behind_name, one_number, string_behind};
use crate::text::hex_digits;
use crate::trace::Trace;
use chc_sexpr::{TextErr, Tree, first_fault_is_one, read_trees, symbol_of};
use chc_sorts::{List, NoMemory};
use chc_source::ByteText;
use chc_state::Step;
use hex::FromHex;
use std::alloc::Global;

/// Whether the tree is the mark of a trace of the first version.
fn is_mark(tree: &Tree) -> bool
    ensures { result ≡ is_mark tree.now }
{
    match behind_name(tree, b"chc-trace") {
        Some(version) => one_number(version) == Some(1),
        None => false,
    }
}

/// The 32 bytes of 64 hexadecimal digits, lower case.
fn digest_of(digits: &[u8]) -> Option<[u8; 32]>
    ensures { result ≡ digest_of digits.now }
{
    match <[u8; 32] as FromHex>::from_hex(digits) {
        Ok(digest) if hex_digits(&digest).as_slice() == digits => Some(digest),
        _ => None,
    }
}

/// The digest of the source.
fn source_of(tree: &Tree) -> Option<[u8; 32]>
    ensures { result ≡ source_of tree.now }
{
    digest_of(string_behind(tree, b"source")?)
}

/// The step that trees tell, of which the first is the symbol of its kind.
fn step_in(alloc: Global, trees: &[Tree]) -> Result<Option<Step>, NoMemory>
    ensures { Gives result (step_in trees.now) }
{
    match trees {
        [] => Ok(None),
        [kind, parts @ ..] => match symbol_of(kind) {
            Some(word) => told_by(alloc, word, parts),
            None => Ok(None),
        },
    }
}

/// The step that a tree is.
fn step_of(alloc: Global, tree: &Tree) -> Result<Option<Step>, NoMemory>
    ensures { Gives result (step_of tree.now) }
{
    match behind_name(tree, b"step") {
        Some(trees) => step_in(alloc, trees),
        None => Ok(None),
    }
}

/// A text of the bytes.
fn text_of(alloc: Global, bytes: &[u8]) -> Result<ByteText, NoMemory>
    ensures { IfOk result (λ text. text ≡ bytes.now) }
{
    let mut text = ByteText::new(alloc);
    text.extend(bytes)?;
    Ok(text)
}

/// How far the tree behind the source and these steps leads.
fn step_or_target(
    alloc: Global,
    source: [u8; 32],
    steps: List<Step>,
    tree: &Tree,
) -> Result<Option<Progress>, NoMemory>
    ensures { Gives result (taken (progress.Stepping source steps) tree.now) }
{
    if let Some(step) = step_of(alloc, tree)? {
        let mut steps = steps;
        steps.push(step)?;
        return Ok(Some(Progress::Stepping(source, steps)));
    }
    match string_behind(tree, b"target") {
        Some(bytes) => {
            let target = text_of(alloc, bytes)?;
            Ok(Some(Progress::Ended(Trace {
                source,
                steps,
                target,
            })))
        }
        None => Ok(None),
    }
}

/// How far the next tree leads, if it fits.
fn taken(alloc: Global, progress: Progress, tree: &Tree) -> Result<Option<Progress>, NoMemory>
    ensures { Gives result (taken progress tree.now) }
{
    match progress {
        Progress::Start => Ok(is_mark(tree).then_some(Progress::Marked)),
        Progress::Marked => match source_of(tree) {
            Some(source) => Ok(Some(Progress::Stepping(source, List::new(alloc)))),
            None => Ok(None),
        },
        Progress::Stepping(source, steps) => step_or_target(alloc, source, steps, tree),
        Progress::Ended(_) => Ok(None),
    }
}

/// How far the next tree leads.
fn next(alloc: Global, progress: Progress, tree: &Tree) -> Result<Progress, TextErr>
    ensures { Tells result (wanted_at (place_of tree.now) (taken progress tree.now)) }
{
    let led = taken(alloc, progress, tree)?;
    fitting(alloc, tree, led)
}

/// The trace at the end of a text of that length.
fn at_end(alloc: Global, progress: Progress, length: u64) -> Result<Trace, TextErr>
    ensures { Tells result (at_end length progress) }
{
    match progress {
        Progress::Ended(trace) => Ok(trace),
        Progress::Start | Progress::Marked | Progress::Stepping(_, _) => {
            Err(bad_form(alloc, length))
        }
    }
}

/// The trace that the trees of a text of that length are.
fn trace_of(alloc: Global, trees: &[Tree], length: u64) -> Result<Trace, TextErr>
    ensures { Tells result (read_on length progress.Start trees.now) }
{
    let mut progress = Progress::Start;
    for tree in trees {
        progress = next(alloc, progress, tree)?;
    }
    at_end(alloc, progress, length)
}

/// Reads the trace that a text of at most 4,294,967,295 bytes says; it says no other. Errors: `At` the first fault of a text
/// that says none, of the tokens and groups before the `BadForm` of a tree that doesn't fit, or of the text's end where a
/// tree is wanting; `NoMemory`.
pub fn read_trace(alloc: Global, bytes: &[u8]) -> Result<Trace, TextErr>
    requires { length bytes.now < 2 ^ 32 }
    ensures { IsTraceReading bytes.now result }
{
    first_fault_is_one();
    let trees = read_trees(alloc, bytes)?;
    trace_of(alloc, trees.as_slice(), bytes.len() as u64)
}
