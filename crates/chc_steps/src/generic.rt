//! Runs of steps of one kind, and the way back over them. A kind may stand for several, as each does that chooses among
//! others.

ghost use Rattle.std.specs.Prelude.{◌≡◌, ◌++◌, ◌∷◌, [], true, false, List as ListOf, length, IfOk, IfErr};
ghost use Rattle.chc_values.specs.Worlds.{IsWorld};
ghost use Rattle.chc_state.specs.States.{StateView};
ghost use Rattle.chc_state.specs.Definitions.{Defines};
ghost use Rattle.chc_state.specs.Refuting.{Refutes};
ghost use Rattle.chc_state.specs.Passes.{IsState, IsFound, IsNone, Applies};
ghost use Rattle.chc_steps.specs.Runs.{last, Goes, Stand, HasOneMore, IsTaken, IsStepRefusal, IsRun, IsReplayRefusal, IsDefsBack, TurnsOver};

use crate::refusal::{ReplayErr, RunBackErr};
use chc_sorts::{List, NoMemory};
use chc_state::{Defs, Pass, State, Steps};
use chc_values::World;
use std::alloc::Global;

/// A state, the choices that led there, and their undos.
#[derive(Drop)]
pub(crate) struct Way<C, U> {
    pub(crate) state: State,
    pub(crate) choices: List<C>,
    pub(crate) undos: List<U>,
}

/// Takes the step of number `k`, where it is legal: the state after it, and its undo.
fn replay_step<P: Pass>(
    alloc: Global,
    s: State,
    c: &P::Choice,
    k: u64,
) -> Result<(State, P::Undo), ReplayErr>
    ensures ok { IfOk result (λ done. IsTaken P.after P.legal P.stands s c.now done.1 done.0) }
    ensures refused { IfErr result (IsStepRefusal P.legal s c.now k) }
{
    if P::legal(alloc, &s, c)? {
        Ok(P::apply(alloc, s, c)?)
    } else {
        Err(ReplayErr::NotLegal(k))
    }
}

/// Takes these steps again: the state after them, and their undos. Errors: `NotLegal` with the first step that isn't
/// legal where it stands; `NoMemory`.
pub(crate) fn replay<P: Pass>(
    alloc: Global,
    s: State,
    choices: &[P::Choice],
) -> Result<(State, List<P::Undo>), ReplayErr>
    ensures ok { IfOk result (λ done. IsRun P.after P.stands P.legal s choices.now done.1 done.0) }
    ensures refused { IfErr result (IsReplayRefusal P.after P.legal s choices.now) }
{
    let mut state = s;
    let mut undos = List::new(alloc);
    for (i, choice) in choices.iter().enumerate() {
        let (next, undo) = replay_step::<P>(alloc, state, choice, i as u64)?;
        state = next;
        undos.push(undo)?;
    }
    Ok((state, undos))
}

/// The way, one step longer.
fn take<P: Pass>(
    alloc: Global,
    way: Way<P::Choice, P::Undo>,
    choice: P::Choice,
) -> Result<Way<P::Choice, P::Undo>, NoMemory>
    requires { P.legal way.state choice }
    ensures applied { IfOk result (λ longer. Applies P.after P.reduces P.adds way.state choice longer.state) }
    ensures choices { IfOk result (λ longer. longer.choices ≡ way.choices ++ choice ∷ []) }
    ensures undos { IfOk result (λ longer. HasOneMore (λ u. P.stands u way.state choice) way.undos longer.undos) }
    ensures state { IfOk result (λ longer. IsState longer.state) }
{
    let Way {
        state,
        mut choices,
        mut undos,
    } = way;
    let (state, undo) = P::apply(alloc, state, &choice)?;
    state.kept();
    choices.push(choice)?;
    undos.push(undo)?;
    Ok(Way {
        state,
        choices,
        undos,
    })
}

/// Takes the step that is found, and again, until none is found.
pub(crate) fn forward<P: Pass>(alloc: Global, s: State) -> Result<Way<P::Choice, P::Undo>, NoMemory>
    requires reduces { (t : StateView) (c : P.Choice) → P.chosen t c → P.reduces c ≡ true }
    requires adds { (t : StateView) (c : P.Choice) → P.chosen t c → P.adds c ≡ false }
    ensures run { IfOk result (λ way. IsRun P.after P.stands P.legal s way.choices way.undos way.state) }
    ensures found { IfOk result (λ way. Goes P.after (IsFound P.chosen P.legal P.terms) s way.choices way.state) }
    ensures ends { IfOk result (λ way. IsNone P.chosen P.settled way.state) }
    ensures as_many { IfOk result (λ way. length way.state.preds ≡ length s.preds) }
{
    let mut way = Way {
        state: s,
        choices: List::new(alloc),
        undos: List::new(alloc),
    };
    while let Some(choice) = P::find(alloc, &way.state)? {
        way = take::<P>(alloc, way, choice)?;
    }
    Ok(way)
}

/// The definitions before the steps that these undos stand for, from definitions of the live predicates after them.
/// In each world in which those make the clauses after the steps true, they make the clauses before them true. Refuses
/// only for want of memory.
pub(crate) fn back_defs<P: Pass>(
    alloc: Global,
    undos: &[P::Undo],
    d: Defs,
) -> Result<Defs, NoMemory>
    requires { (s : StateView) × (cs : ListOf P.Choice) × Stand P.after P.stands undos.now s cs × Defines d (last P.after s cs) }
    ensures { IfOk result (λ e. (s : StateView) (cs : ListOf P.Choice) → Stand P.after P.stands undos.now s cs → Defines d (last P.after s cs) → IsDefsBack P.after P.back s cs d e) }
{
    let mut made = d;
    let mut left = undos.len();
    while left > 0 {
        left -= 1;
        made = P::back_defs(alloc, &undos[left], made)?;
    }
    Ok(made)
}

/// The steps before the steps that these undos stand for, from the steps of a refutation of the state after them, in
/// the world `w`. Errors: `OutOfRange` with the first undo, the last one first, for which a value is computed that isn't
/// in range, and with the first such step of the list handed to it; `NoMemory`.
pub(crate) fn back_steps<P: Pass>(
    alloc: Global,
    undos: &[P::Undo],
    r: Steps,
    w: &World,
) -> Result<Steps, RunBackErr>
    requires { (s : StateView) × (cs : ListOf P.Choice) × Stand P.after P.stands undos.now s cs × IsWorld s.sig w.now × Refutes (last P.after s cs) w.now r }
    ensures { (s : StateView) (cs : ListOf P.Choice) → Stand P.after P.stands undos.now s cs → IsWorld s.sig w.now → Refutes (last P.after s cs) w.now r → TurnsOver P.after P.turned P.exceeds w.now r s cs result }
{
    let mut made = r;
    let mut left = undos.len();
    while left > 0 {
        left -= 1;
        made = match P::back_steps(alloc, &undos[left], made, w) {
            Ok(made) => made,
            Err(refused) => return Err(RunBackErr::at(left as u64, refused)),
        };
    }
    Ok(made)
}
