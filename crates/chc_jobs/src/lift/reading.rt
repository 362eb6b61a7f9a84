//! Answers from bytes.

ghost use Rattle.std.specs.Prelude.{◌≡◌, ◌<◌, ◌^◌, length, Ok, IfOk, IfErr};
ghost use Rattle.chc_state.specs.Definitions.{Defines};
ghost use Rattle.ans_model.specs.Answers.{IsModelReading};
ghost use Rattle.chc_jobs.specs.Answering.{unsat_among, FindsUnsat, IsAnswerRefusal, IsFaultOr, not_yet};

use ans_model::read_defs;
use chc_elab::place_of;
use chc_sexpr::{Fault, TextErr, TextFault, Tree, is_symbol, read_trees};
use chc_source::{ByteText, NoMemory};
use chc_state::{Defs, Names, State};
use std::alloc::Global;

/// The place of the first tree, where it is the symbol `unsat`.
fn unsat_among(trees: &[Tree]) -> Option<u64>
    ensures { result ≡ unsat_among trees.now }
{
    match trees {
        [] => None,
        [first, ..] => is_symbol(first, b"unsat").then_some(place_of(first)),
    }
}

/// The place of the first tree that the bytes spell, where it is the symbol `unsat`.
fn find_unsat(alloc: Global, answer: &[u8]) -> Result<Option<u64>, NoMemory>
    requires { length answer.now < 2 ^ 32 }
    ensures { IfOk result (FindsUnsat answer.now) }
{
    match read_trees(alloc, answer) {
        Ok(trees) => Ok(unsat_among(trees.as_slice())),
        Err(TextErr::At(_)) => Ok(None),
        Err(TextErr::NoMemory) => Err(NoMemory),
    }
}

/// The fault of a form that this version doesn't read.
fn not_yet(alloc: Global, place: u64) -> TextFault
    ensures { result ≡ not_yet place }
{
    TextFault {
        place,
        fault: Fault::NotYet,
        name: ByteText::new(alloc),
    }
}

/// The fault of an answer that says no definitions, where this is its fault as a model: refutations aren't read yet.
fn fault_of_answer(alloc: Global, answer: &[u8], fault: TextFault) -> Result<TextFault, NoMemory>
    requires short { length answer.now < 2 ^ 32 }
    ensures { IfOk result (IsFaultOr answer.now fault) }
{
    match find_unsat(alloc, answer)? {
        Some(place) => Ok(not_yet(alloc, place)),
        None => Ok(fault),
    }
}

/// The definitions that the bytes say of the state's live predicates, which have these names. Refutations aren't read yet:
/// an answer that begins with the symbol `unsat` has the fault `NotYet` there.
pub(crate) fn read_model(
    alloc: Global,
    answer: &[u8],
    state: &State,
    names: &Names,
) -> Result<Defs, TextErr>
    requires { length answer.now < 2 ^ 32 }
    ensures says { IfOk result (λ d. IsModelReading state.now names.now answer.now (Ok d)) }
    ensures defines { IfOk result (λ d. Defines d state.now) }
    ensures refused { IfErr result (IsAnswerRefusal answer.now state.now names.now) }
{
    match read_defs(alloc, answer, state, names) {
        Ok(defs) => Ok(defs),
        Err(TextErr::At(fault)) => Err(TextErr::At(fault_of_answer(alloc, answer, fault)?)),
        Err(TextErr::NoMemory) => Err(TextErr::NoMemory),
    }
}
