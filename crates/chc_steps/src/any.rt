//! All kinds of steps as one.

ghost use Rattle.std.specs.Prelude.{refl};
ghost use Rattle.std.proofs.Common.{sym, ◌∙◌};
ghost use Rattle.chc_state.specs.declared.step.Step.TheVariants as step;
ghost use Rattle.chc_steps.specs.Kinds.{IsLegal, after, IsFirstStep, IsNormal, terms_of, reduces, adds, StandsFor, back, IsTurned, Exceeds};

use chc_sorts::NoMemory;
use chc_state::{BackErr, Defs, Pass, State, Step, Steps};
use chc_values::World;
use pass_slice::{Sliced, Unneeded, Unreached, Void};
use std::alloc::Global;

/// What the way back needs to know of a step that was taken.
#[derive(Debug, Drop)]
pub enum AnyUndo {
    Void(u32),
    Unreached(Sliced),
    Unneeded(Sliced),
}

/// The kinds of steps as one. It takes the step of the first kind that has a choice.
pub(crate) struct AnyPass;

impl Pass for AnyPass {
    type Choice = Step;

    type Undo = AnyUndo;

    ghost legal = { IsLegal };

    ghost after = { after };

    ghost chosen = { IsFirstStep };

    ghost settled = { IsNormal };

    ghost terms = { terms_of };

    ghost reduces = { reduces };

    ghost adds = { adds };

    ghost stands = { StandsFor };

    ghost back = { back };

    ghost turned = { IsTurned };

    ghost exceeds = { Exceeds };

    fn find(alloc: Global, s: &State) -> Result<Option<Step>, NoMemory> {
        if let Some(k) = Void::find(alloc, s)? {
            return Ok(Some(Step::Void(k)));
        }
        if let Some(ps) = Unreached::find(alloc, s)? {
            return Ok(Some(Step::Unreached(ps)));
        }
        if let Some(ps) = Unneeded::find(alloc, s)? {
            return Ok(Some(Step::Unneeded(ps)));
        }
        Ok(None)
    }

    fn legal(alloc: Global, s: &State, x: &Step) -> Result<bool, NoMemory> {
        match x {
            Step::Void(k) => Ok(Void::legal(alloc, s, k)?),
            Step::Unreached(ps) => Ok(Unreached::legal(alloc, s, ps)?),
            Step::Unneeded(ps) => Ok(Unneeded::legal(alloc, s, ps)?),
        }
    }

    fn apply(alloc: Global, s: State, x: &Step) -> Result<(State, AnyUndo), (State, NoMemory)> {
        match x {
            Step::Void(k) => {
                let (z, u) = Void::apply(alloc, s, k)?;
                Ok((z, AnyUndo::Void(u)))
            }
            Step::Unreached(ps) => {
                let (z, u) = Unreached::apply(alloc, s, ps)?;
                Ok((z, AnyUndo::Unreached(u)))
            }
            Step::Unneeded(ps) => {
                let (z, u) = Unneeded::apply(alloc, s, ps)?;
                Ok((z, AnyUndo::Unneeded(u)))
            }
        }
    }

    fn back_defs(alloc: Global, u: &AnyUndo, d: Defs) -> Result<Defs, NoMemory> {
        match u {
            AnyUndo::Void(u) => Void::back_defs(alloc, u, d),
            AnyUndo::Unreached(u) => Unreached::back_defs(alloc, u, d),
            AnyUndo::Unneeded(u) => Unneeded::back_defs(alloc, u, d),
        }
    }

    fn back_steps(alloc: Global, u: &AnyUndo, r: Steps, w: &World) -> Result<Steps, BackErr> {
        match u {
            AnyUndo::Void(u) => Void::back_steps(alloc, u, r, w),
            AnyUndo::Unreached(u) => Unreached::back_steps(alloc, u, r, w),
            AnyUndo::Unneeded(u) => Unneeded::back_steps(alloc, u, r, w),
        }
    }

    ghost keeps_sig = { λ s. elim [ step.Void k ↦ refl | step.Unreached ps ↦ refl | step.Unneeded ps ↦ refl ] };

    ghost one_turned = { λ s. elim [ step.Void k ↦ λ w r d e p q. p ∙ sym q | step.Unreached ps ↦ λ w r d e p q. p ∙ sym q | step.Unneeded ps ↦ λ w r d e p q. p ∙ sym q ] };
}
