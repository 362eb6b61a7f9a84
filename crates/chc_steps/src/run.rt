//! Runs of steps of all kinds.

ghost use Rattle.std.specs.Prelude.{◌≡◌, length, IfOk, IfErr};
ghost use Rattle.chc_values.specs.Worlds.{IsWorld};
ghost use Rattle.chc_state.specs.States.{StateView};
ghost use Rattle.chc_state.specs.Definitions.{Defines};
ghost use Rattle.chc_state.specs.Refuting.{Refutes};
ghost use Rattle.chc_state.specs.Passes.{Finds, IsFound};
ghost use Rattle.chc_steps.specs.Kinds.{IsLegal, after, IsFirstStep, IsNormal, terms_of, StandsFor, back, IsTurned, Exceeds};
ghost use Rattle.chc_steps.specs.Runs.{last, Goes, Stand, IsRun, IsReplayRefusal, IsDefsBack, TurnsOver};

use crate::any::{AnyPass, AnyUndo};
use crate::generic::{self, Way};
use crate::refusal::{ReplayErr, RunBackErr};
use chc_sorts::{List, NoMemory};
use chc_state::{Defs, Pass, State, Step, Steps};
use chc_values::World;
use std::alloc::Global;

/// Steps that were taken one after the other, and what the way back over them needs to know: an undo for each. The run
/// stands for a state where each undo is of its step, from the state in which that step was taken.
#[derive(Debug, Drop)]
pub struct Run {
    pub steps: List<Step>,
    pub undos: List<AnyUndo>,
}

/// The step that the first kind has which has any, or `None` where no kind has one. Refuses only for want of memory.
pub fn first(alloc: Global, s: &State) -> Result<Option<Step>, NoMemory>
    ensures { IfOk result (Finds IsFirstStep IsLegal terms_of IsNormal s.now) }
{
    AnyPass::find(alloc, s)
}

/// Takes the `first` step, and again, until there is none: the last state, and the run that leads there from `s`. False
/// has a derivation from its clauses exactly where it has from those of `s`, in every world. Refuses only for want of
/// memory.
pub fn normal(alloc: Global, s: State) -> Result<(State, Run), NoMemory>
    ensures run { IfOk result (λ done. IsRun after StandsFor IsLegal s done.1.steps done.1.undos done.0) }
    ensures first { IfOk result (λ done. Goes after (IsFound IsFirstStep IsLegal terms_of) s done.1.steps done.0) }
    ensures normal { IfOk result (λ done. IsNormal done.0) }
    ensures as_many { IfOk result (λ done. length done.0.preds ≡ length s.preds) }
{
    let Way {
        state,
        choices,
        undos,
    } = generic::forward::<AnyPass>(alloc, s)?;
    let steps = choices;
    Ok((state, Run { steps, undos }))
}

/// Takes these steps, in whatever order they stand: the last state, and the run that leads there from `s`. Errors:
/// `NotLegal` with the first step that isn't legal where it stands; `NoMemory`.
pub fn replay(alloc: Global, s: State, steps: &[Step]) -> Result<(State, Run), ReplayErr>
    ensures run { IfOk result (λ done. IsRun after StandsFor IsLegal s steps.now done.1.undos done.0) }
    ensures steps { IfOk result (λ done. done.1.steps ≡ steps.now) }
    ensures refused { IfErr result (IsReplayRefusal after IsLegal s steps.now) }
{
    let (state, undos) = generic::replay::<AnyPass>(alloc, s, steps)?;
    let steps = copy_steps(alloc, steps)?;
    Ok((state, Run { steps, undos }))
}

/// Equal steps on fresh memory.
fn copy_steps(alloc: Global, steps: &[Step]) -> Result<List<Step>, NoMemory>
    ensures { IfOk result (λ copies. copies ≡ steps.now) }
{
    let mut copies = List::new(alloc);
    for step in steps {
        copies.push(step.copy(alloc)?)?;
    }
    Ok(copies)
}

/// The definitions before the run, from definitions of the live predicates after it: the last step's way back comes
/// first. In each world in which those make the clauses after the run true, they make the clauses before it true. Refuses
/// only for want of memory.
pub fn back_defs(alloc: Global, run: &Run, d: Defs) -> Result<Defs, NoMemory>
    requires { (s : StateView) × Stand after StandsFor run.now.undos s run.now.steps × Defines d (last after s run.now.steps) }
    ensures { IfOk result (λ e. (s : StateView) → Stand after StandsFor run.now.undos s run.now.steps → Defines d (last after s run.now.steps) → IsDefsBack after back s run.now.steps d e) }
{
    generic::back_defs::<AnyPass>(alloc, run.undos.as_slice(), d)
}

/// The steps before the run, from the steps of a refutation of the state after it, in the world `w`. They refute the state
/// before it, and the weights of the clauses that they name sum to no more than before. Errors: `OutOfRange` with the step
/// of the run, the last one first, and the first step of the list handed to it for which a value is computed that isn't in
/// range; `NoMemory`.
pub fn back_steps(alloc: Global, run: &Run, r: Steps, w: &World) -> Result<Steps, RunBackErr>
    requires { (s : StateView) × Stand after StandsFor run.now.undos s run.now.steps × IsWorld s.sig w.now × Refutes (last after s run.now.steps) w.now r }
    ensures { (s : StateView) → Stand after StandsFor run.now.undos s run.now.steps → IsWorld s.sig w.now → Refutes (last after s run.now.steps) w.now r → TurnsOver after IsTurned Exceeds w.now r s run.now.steps result }
{
    generic::back_steps::<AnyPass>(alloc, run.undos.as_slice(), r, w)
}
