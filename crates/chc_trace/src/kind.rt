//! The kinds of steps: the word of each, and the numbers behind it. A kind has a line of its own in each of the three
//! functions here, as it has in the definitions that they cite.

ghost use Rattle.std.specs.Prelude.{◌≡◌, ◌++◌, map, OnOk};
ghost use Rattle.chc_sexpr.specs.Readings.{Gives};
ghost use Rattle.chc_sexpr.specs.Writing.{spaced, tree_text};
ghost use Rattle.chc_trace.specs.Kinds.{HasSmallNumbers, kinds, parts_of, told_by, word_of};

use crate::shape::{numbers_of, one_number};
use crate::text::write_numbers;
use chc_sexpr::Tree;
use chc_sorts::NoMemory;
use chc_source::ByteText;
use chc_state::Step;
use std::alloc::Global;

/// The step of the kind of that word, from the trees behind the word.
pub fn told_by(alloc: Global, word: &[u8], parts: &[Tree]) -> Result<Option<Step>, NoMemory>
    ensures { Gives result (told_by kinds word.now parts.now) }
{
    if word == b"void".as_slice() {
        return Ok(one_number(parts).map(Step::Void));
    }
    if word == b"unreached".as_slice() {
        return Ok(numbers_of(alloc, parts)?.map(Step::Unreached));
    }
    if word == b"unneeded".as_slice() {
        return Ok(numbers_of(alloc, parts)?.map(Step::Unneeded));
    }
    Ok(None)
}

/// The word of the step's kind.
pub fn word_of(step: &Step) -> &'static [u8]
    ensures { result.now ≡ word_of step.now }
{
    match step {
        Step::Void(_) => b"void",
        Step::Unreached(_) => b"unreached",
        Step::Unneeded(_) => b"unneeded",
    }
}

/// Writes what stands behind the word, with a space before each part.
#[tactic(auto, using(crate::proofs::Texts::numbers_text, crate::proofs::Texts::number_text))]
pub fn write_parts(out: &mut ByteText, step: &Step) -> Result<(), NoMemory>
    ensures text { OnOk result (out.new ≡ out.old ++ spaced (map tree_text (parts_of step.now))) }
    ensures small { OnOk result (HasSmallNumbers step.now) }
{
    match step {
        Step::Void(clause) => write_numbers(out, &[*clause])?,
        Step::Unreached(preds) => write_numbers(out, preds.as_slice())?,
        Step::Unneeded(preds) => write_numbers(out, preds.as_slice())?,
    }
    Ok(())
}
