//! The steps of all kinds: as long as there are any, as a trace has them, and the way back.

ghost use Rattle.std.specs.Prelude.{◌≡◌, ℕ, List, IfOk, IfErr};
ghost use Rattle.chc_state.specs.States.{StateView};
ghost use Rattle.chc_state.specs.Names.{AreNamesOf};
ghost use Rattle.chc_state.specs.Definitions.{Defines};
ghost use Rattle.chc_steps.specs.Kinds.{IsLegal, after, StandsFor, back};
ghost use Rattle.chc_steps.specs.Runs.{Goes, Stand, IsReplayRefusal, IsDefsBack, last};
ghost use Rattle.chc_jobs.specs.Jobs.{Simplifies};

use super::copying::copy_state;
use chc_sorts::{List, NoMemory};
use chc_state::{Defs, State, Step};
use chc_steps::{ReplayErr, Run};
use std::alloc::Global;

/// A state, and the steps that led there.
#[derive(Drop)]
pub(crate) struct Simplified {
    pub(crate) state: State,
    pub(crate) steps: List<Step>,
}

/// A state, and the run that led there.
#[derive(Drop)]
pub(crate) struct Replayed {
    pub(crate) state: State,
    pub(crate) run: Run,
}

/// Takes steps until no kind has one. The last state has the predicates' names.
pub(crate) fn simplify(alloc: Global, s: State) -> Result<Simplified, NoMemory>
    ensures simplifies { IfOk result (λ r. Simplifies s r.steps r.state) }
    ensures names { IfOk result (λ r. (names : List (List ℕ)) → AreNamesOf s names → AreNamesOf r.state names) }
{
    let (state, run) = chc_steps::normal(alloc, s)?;
    Ok(Simplified {
        state,
        steps: run.steps,
    })
}

/// The state after all of these steps from this state, which stays.
pub(crate) fn replay(alloc: Global, s: &State, steps: &[Step]) -> Result<Replayed, ReplayErr>
    ensures goes { IfOk result (λ r. Goes after IsLegal s.now steps.now r.state) }
    ensures steps { IfOk result (λ r. r.run.steps ≡ steps.now) }
    ensures stand { IfOk result (λ r. Stand after StandsFor r.run.undos s.now steps.now) }
    ensures refused { IfErr result (IsReplayRefusal after IsLegal s.now steps.now) }
{
    let start = copy_state(alloc, s)?;
    let (state, run) = chc_steps::replay(alloc, start, steps)?;
    Ok(Replayed { state, run })
}

/// The definitions before the run, from those of the state after it.
pub(crate) fn take_back(alloc: Global, run: &Run, defs: Defs) -> Result<Defs, NoMemory>
    requires { (s : StateView) × Stand after StandsFor run.now.undos s run.now.steps × Defines defs (last after s run.now.steps) }
    ensures { IfOk result (λ e. (s : StateView) → Stand after StandsFor run.now.undos s run.now.steps → Defines defs (last after s run.now.steps) → IsDefsBack after back s run.now.steps defs e) }
{
    chc_steps::back_defs(alloc, run, defs)
}
