//! Kinds of steps.

ghost use Rattle.std.specs.Prelude.{◌≡◌, ◌↔◌, ℕ, Bool, List, IsTrue, IfOk, IfErr};
ghost use Rattle.chc_values.specs.declared.world.WorldEntry.{WorldEntry};
ghost use Rattle.chc_values.specs.Worlds.{IsWorld};
ghost use Rattle.chc_terms.specs.declared.term.Term.{Term};
ghost use Rattle.chc_state.specs.declared.defs.Defs.{Defs as Definitions};
ghost use Rattle.chc_state.specs.declared.refutation.RefStep.{RefStep};
ghost use Rattle.chc_state.specs.States.{StateView};
ghost use Rattle.chc_state.specs.Definitions.{Defines};
ghost use Rattle.chc_state.specs.Refuting.{Refutes};
ghost use Rattle.chc_state.specs.Back.{LeadsBack};
ghost use Rattle.chc_state.specs.Passes.{Finds, Applies, TurnsBack};

use crate::defs::Defs;
use crate::refutation::{BackErr, Steps};
use crate::state::State;
use chc_sorts::NoMemory;
use chc_values::World;
use std::alloc::Global;

/// A kind of steps. A step goes from a state to another that answers alike: false has a derivation from the one's
/// clauses exactly where it has from the other's, in every world. Answers to the state after it are taken back to
/// answers to the state before.
pub trait Pass {
    /// What a step of the kind names.
    type Choice: Drop;
    /// What the way back needs to know of a step that was taken.
    type Undo: Drop;

    /// Where the step may be taken.
    ghost legal: { StateView → Self.Choice → Type 0 };

    /// The state after it.
    ghost after: { StateView → Self.Choice → StateView };

    /// Which step the kind takes.
    ghost chosen: { StateView → Self.Choice → Type 0 };

    /// That nothing is left for the kind to do.
    ghost settled: { StateView → Type 0 };

    /// The terms that the choice names.
    ghost terms: { Self.Choice → List Term };

    /// Whether the step makes the measure less.
    ghost reduces: { Self.Choice → Bool };

    /// Whether the step may add a predicate.
    ghost adds: { Self.Choice → Bool };

    /// That the undo is of this step from this state.
    ghost stands: { Self.Undo → StateView → Self.Choice → Type 0 };

    /// The definitions before the step, from those after it.
    ghost back: { StateView → Self.Choice → Definitions → Definitions };

    /// What the steps of a refutation of the state after become in the world: they, and then those before the step.
    ghost turned: { StateView → Self.Choice → List WorldEntry → List RefStep → List RefStep → Type 0 };

    /// That for the refutation's step of that number a value is computed that isn't in range.
    ghost exceeds: { StateView → Self.Choice → List WorldEntry → List RefStep → ℕ → Type 0 };

    /// The choice that the kind has in the state, or `None` where it has none. Refuses only for want of memory.
    fn find(alloc: Global, s: &State) -> Result<Option<Self::Choice>, NoMemory>
        ensures { IfOk result (Finds chosen legal terms settled s.now) };

    /// Whether the step may be taken. Refuses only for want of memory.
    fn legal(alloc: Global, s: &State, c: &Self::Choice) -> Result<bool, NoMemory>
        ensures { IfOk result (λ b. IsTrue b ↔ legal s.now c.now) };

    /// Takes the step: the state after it, and its undo. Where memory is refused, the state comes back.
    fn apply(
        alloc: Global,
        s: State,
        c: &Self::Choice,
    ) -> Result<(State, Self::Undo), (State, NoMemory)>
        requires { legal s c.now }
        ensures applied { IfOk result (λ done. Applies after reduces adds s c.now done.0) }
        ensures stands { IfOk result (λ done. stands done.1 s c.now) }
        ensures unchanged { IfErr result (λ refused. refused.0 ≡ s) };

    /// The definitions before the step, from definitions of the live predicates after it. In each world in which those
    /// make the clauses after it true, they make the clauses before it true. Refuses only for want of memory.
    fn back_defs(alloc: Global, u: &Self::Undo, d: Defs) -> Result<Defs, NoMemory>
        requires { (s : StateView) × (c : Self.Choice) × stands u.now s c × Defines d (after s c) }
        ensures value { IfOk result (λ e. (s : StateView) (c : Self.Choice) → stands u.now s c → Defines d (after s c) → e ≡ back s c d) }
        ensures leads { IfOk result (λ e. (s : StateView) (c : Self.Choice) → stands u.now s c → Defines d (after s c) → LeadsBack s d e (after s c)) };

    /// The steps before the step, from the steps of a refutation of the state after it, in the world `w`. They refute the
    /// state before it, and the weights of the clauses that they name sum to no more than before. Errors: `OutOfRange`
    /// with the first step for which a value is computed that isn't in range; `NoMemory`.
    fn back_steps(alloc: Global, u: &Self::Undo, r: Steps, w: &World) -> Result<Steps, BackErr>
        requires { (s : StateView) × (c : Self.Choice) × stands u.now s c × IsWorld s.sig w.now × Refutes (after s c) w.now r }
        ensures { (s : StateView) (c : Self.Choice) → stands u.now s c → IsWorld s.sig w.now → Refutes (after s c) w.now r → TurnsBack (turned s c w.now r) (exceeds s c w.now r) s (after s c) w.now r result };

    /// A step keeps the signature.
    ghost keeps_sig: { (s : StateView) (c : Self.Choice) → (after s c).sig ≡ s.sig };

    /// A step turns steps into one list alone.
    ghost one_turned: { (s : StateView) (c : Self.Choice) (w : List WorldEntry) (r d e : List RefStep) → turned s c w r d → turned s c w r e → d ≡ e };
}
