//! The kinds of steps.

ghost use Rattle.std.specs.Prelude.{◌≡◌, true, false, [], refl};
ghost use Rattle.std.proofs.Common.{sym, ◌∙◌};
ghost use Rattle.pass_slice.specs.Slices.{Slice, CanGo, IsGreatest, IsSliced, sliced};
ghost use Rattle.pass_slice.specs.Undos.{Stands, slice_back, slice_turned};
ghost use Rattle.pass_slice.specs.Voids.{CanVoid, IsLeastVoid, HasNoVoid, VoidStands, without_clause, void_turned};

use crate::sliced::{Sliced, renumber, with_constants};
use crate::{unneeded, unreached, void};
use chc_sorts::{List, NoMemory};
use chc_state::{BackErr, Defs, Pass, State, Steps};
use chc_values::World;
use std::alloc::Global;

/// Removes a clause that concludes nothing new: a conjunct is `false`, or its head is one of its body atoms. It takes the
/// least clause for which the limits hold without it.
pub struct Void;

impl Pass for Void {
    type Choice = u32;

    type Undo = u32;

    ghost legal = { CanVoid };

    ghost after = { without_clause };

    ghost chosen = { IsLeastVoid };

    ghost settled = { HasNoVoid };

    ghost terms = { λ _. [] };

    ghost reduces = { λ _. true };

    ghost adds = { λ _. false };

    ghost stands = { VoidStands };

    ghost back = { λ s k d. d };

    ghost turned = { λ s k w r e. e ≡ void_turned k r };

    ghost exceeds = { λ s k w r n. ⊥ };

    #[tactic(auto, using(crate::proofs::Voiding::finds_void))]
    fn find(_alloc: Global, s: &State) -> Result<Option<u32>, NoMemory> {
        Ok(void::find(s))
    }

    fn legal(_alloc: Global, s: &State, k: &u32) -> Result<bool, NoMemory> {
        Ok(void::can_void(s, *k))
    }

    fn apply(_alloc: Global, s: State, k: &u32) -> Result<(State, u32), (State, NoMemory)> {
        s.kept();
        Ok((void::remove(s, *k), *k))
    }

    fn back_defs(_alloc: Global, _u: &u32, d: Defs) -> Result<Defs, NoMemory> {
        Ok(d)
    }

    fn back_steps(_alloc: Global, u: &u32, r: Steps, _w: &World) -> Result<Steps, BackErr> {
        Ok(renumber(&[*u], r))
    }

    ghost keeps_sig = { λ s k. refl };

    ghost one_turned = { λ s k w r d e p q. p ∙ sym q };
}

/// Removes predicates that no derivation reaches, with the clauses that need one of them: the greatest set of live
/// predicates of which each clause that concludes one has another in its body. On the way back they are false.
pub struct Unreached;

impl Pass for Unreached {
    type Choice = List<u32>;

    type Undo = Sliced;

    ghost legal = { CanGo Slice.forward };

    ghost after = { sliced Slice.forward };

    ghost chosen = { IsGreatest Slice.forward };

    ghost settled = { IsSliced Slice.forward };

    ghost terms = { λ _. [] };

    ghost reduces = { λ _. true };

    ghost adds = { λ _. false };

    ghost stands = { Stands Slice.forward };

    ghost back = { slice_back Slice.forward };

    ghost turned = { λ s ps w r e. e ≡ slice_turned Slice.forward s ps r };

    ghost exceeds = { λ s ps w r n. ⊥ };

    #[tactic(auto, using(crate::proofs::Undoing::finds_slice))]
    fn find(alloc: Global, s: &State) -> Result<Option<List<u32>>, NoMemory> {
        let found = unreached::find(alloc, s)?;
        Ok(found)
    }

    fn legal(alloc: Global, s: &State, ps: &List<u32>) -> Result<bool, NoMemory> {
        unreached::legal(alloc, s, ps)
    }

    fn apply(
        alloc: Global,
        s: State,
        ps: &List<u32>,
    ) -> Result<(State, Sliced), (State, NoMemory)> {
        unreached::apply(alloc, s, ps)
    }

    fn back_defs(alloc: Global, u: &Sliced, d: Defs) -> Result<Defs, NoMemory> {
        let defs = with_constants(alloc, false, u.removed.as_slice(), d)?;
        Ok(defs)
    }

    fn back_steps(_alloc: Global, u: &Sliced, r: Steps, _w: &World) -> Result<Steps, BackErr> {
        Ok(renumber(u.clauses.as_slice(), r))
    }

    ghost keeps_sig = { λ s ps. refl };

    ghost one_turned = { λ s ps w r d e p q. p ∙ sym q };
}

/// Removes predicates that no query needs, with the clauses that conclude one of them: the greatest set of live
/// predicates that stand in the body of no query, and of no clause that concludes another predicate. On the way back
/// they are true.
pub struct Unneeded;

impl Pass for Unneeded {
    type Choice = List<u32>;

    type Undo = Sliced;

    ghost legal = { CanGo Slice.backward };

    ghost after = { sliced Slice.backward };

    ghost chosen = { IsGreatest Slice.backward };

    ghost settled = { IsSliced Slice.backward };

    ghost terms = { λ _. [] };

    ghost reduces = { λ _. true };

    ghost adds = { λ _. false };

    ghost stands = { Stands Slice.backward };

    ghost back = { slice_back Slice.backward };

    ghost turned = { λ s ps w r e. e ≡ slice_turned Slice.backward s ps r };

    ghost exceeds = { λ s ps w r n. ⊥ };

    #[tactic(auto, using(crate::proofs::Undoing::finds_slice))]
    fn find(alloc: Global, s: &State) -> Result<Option<List<u32>>, NoMemory> {
        let found = unneeded::find(alloc, s)?;
        Ok(found)
    }

    fn legal(alloc: Global, s: &State, ps: &List<u32>) -> Result<bool, NoMemory> {
        unneeded::legal(alloc, s, ps)
    }

    fn apply(
        alloc: Global,
        s: State,
        ps: &List<u32>,
    ) -> Result<(State, Sliced), (State, NoMemory)> {
        unneeded::apply(alloc, s, ps)
    }

    fn back_defs(alloc: Global, u: &Sliced, d: Defs) -> Result<Defs, NoMemory> {
        let defs = with_constants(alloc, true, u.removed.as_slice(), d)?;
        Ok(defs)
    }

    fn back_steps(_alloc: Global, u: &Sliced, r: Steps, _w: &World) -> Result<Steps, BackErr> {
        Ok(renumber(u.clauses.as_slice(), r))
    }

    ghost keeps_sig = { λ s ps. refl };

    ghost one_turned = { λ s ps w r d e p q. p ∙ sym q };
}
