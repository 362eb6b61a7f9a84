//! States: predicates and clauses within the limits.

ghost use Rattle.std.specs.Prelude.{◌≡◌, ◌<◌, ◌≤◌, ◌^◌, None, IsTrue, length};
ghost use Rattle.chc_state.specs.States.{StateView, uses_live};
ghost use Rattle.chc_state.specs.Limits.{first_passed};
ghost use Rattle.chc_state.specs.Making.{Makes};
ghost use Rattle.chc_state.specs.Passes.{IsState};
ghost use Rattle.chc_state.specs.Sorts.{are_sorted, positions_fit};
ghost use Rattle.chc_state.specs.WellFormed.{are_well_formed};

use crate::clause::{Clause, PredDecl};
use crate::formed::first_bad;
use crate::making::StateErr;
use crate::tally::over;
use chc_sorts::{List, Sig};
use std::alloc::Global;
use std::marker::Model;

/// A signature, predicates, and clauses over them. There are fewer than 2^32 predicates. All sorts are of the
/// signature, and at most 16 deep. Every clause is well sorted, its terms have no quantifier, predicate or
/// call in them and no number outside -M..M, where M is 2^127 - 1, no conjunct is an `And` or `true`, the clause
/// uses live predicates alone, and all is within the limits.
#[derive(Debug, Drop)]
pub struct State {
    sig: Sig,
    preds: List<PredDecl>,
    clauses: List<Clause>,
}

impl Model for State {
    ghost use Rattle.std.specs.Prelude.{◌≡◌, ◌<◌, ◌^◌, true, IsTrue, is_none, length};
    ghost use Rattle.std.specs.Coded.{codes};
    ghost use Rattle.chc_sorts.specs.contracts.sort.Sort as sort;
    ghost use Rattle.chc_terms.specs.contracts.term.Term as term;
    ghost use Rattle.chc_state.specs.States.{StateView, uses_live};
    ghost use Rattle.chc_state.specs.Limits.{first_passed};
    ghost use Rattle.chc_state.specs.WellFormed.{are_well_formed};

    ghost Value = { StateView };

    ghost coded = { Prim.hlevel (codes, sort.the_row.coded, term.the_row.coded) };

    ghost view = { λ s. record { sig = s.sig; preds = s.preds; clauses = s.clauses } };

    ghost invariant = { λ s. (length s.preds < 2 ^ 32) × IsTrue (uses_live s.preds s.clauses) × (is_none (first_passed s.preds s.clauses) ≡ true) × IsTrue (are_well_formed s.sig s.preds s.clauses) };
}

impl State {
    /// Closes these parts to a state, where they are one. Errors: `BadClause` with the first clause that isn't
    /// well formed or uses a predicate that isn't live; `OverLimit` with the first limit that is passed;
    /// `NoMemory`, which may come instead of any answer.
    #[tactic(auto, using(crate::proofs::Forming::making))]
    pub fn make(
        alloc: Global,
        sig: Sig,
        preds: List<PredDecl>,
        clauses: List<Clause>,
    ) -> Result<State, StateErr>
        requires few_preds { length preds < 2 ^ 32 }
        requires few_clauses { length clauses < 2 ^ 32 }
        requires fit { IsTrue (positions_fit sig preds) }
        ensures { Makes sig preds clauses result }
    {
        if let Some(k) = first_bad(alloc, &sig, &preds, &clauses)? {
            return Err(StateErr::BadClause(k));
        }
        if let Some(limit) = over(&preds, &clauses) {
            return Err(StateErr::OverLimit(limit));
        }
        Ok(State::of_parts(sig, preds, clauses))
    }

    /// Closes these parts to a state.
    pub fn of_parts(sig: Sig, preds: List<PredDecl>, clauses: List<Clause>) -> State
        requires few { length preds < 2 ^ 32 }
        requires live { IsTrue (uses_live preds clauses) }
        requires within { first_passed preds clauses ≡ None }
        requires formed { IsTrue (are_well_formed sig preds clauses) }
        ensures { result ≡ record { sig = sig; preds = preds; clauses = clauses } }
    {
        State {
            sig,
            preds,
            clauses,
        }
    }

    /// The parts of the state, which `of_parts` would close again.
    pub fn into_parts(self) -> (Sig, List<PredDecl>, List<Clause>)
        ensures value { record { sig = result.0; preds = result.1; clauses = result.2 } ≡ self }
        ensures few { length result.1 < 2 ^ 32 }
        ensures live { IsTrue (uses_live result.1 result.2) }
        ensures formed { IsTrue (are_well_formed result.0 result.1 result.2) }
    {
        let State {
            sig,
            preds,
            clauses,
        } = self;
        (sig, preds, clauses)
    }

    /// What the type keeps, as one fact. It does nothing.
    pub fn kept(&self)
        ensures { IsState self.now }
    {
        let (sig, _preds, _clauses) = (self.sig(), self.preds(), self.clauses());
        sig.well_founded();
    }

    /// The signature.
    pub fn sig(&self) -> &Sig
        ensures { result.now ≡ self.now.sig }
    {
        &self.sig
    }

    /// The predicates by number, live or not. There are fewer than 2^32.
    pub fn preds(&self) -> &List<PredDecl>
        ensures value { result.now ≡ self.now.preds }
        ensures few { length self.now.preds < 2 ^ 32 }
    {
        &self.preds
    }

    /// The clauses in order, at most 65,536. They are well formed, use live predicates alone and are within the limits.
    #[tactic(auto, using(crate::proofs::Forming::formed_sorted))]
    pub fn clauses(&self) -> &List<Clause>
        ensures value { result.now ≡ self.now.clauses }
        ensures few { length self.now.clauses ≤ 65536 }
        ensures live { IsTrue (uses_live self.now.preds self.now.clauses) }
        ensures within { first_passed self.now.preds self.now.clauses ≡ None }
        ensures formed { IsTrue (are_well_formed self.now.sig self.now.preds self.now.clauses) }
        ensures sorted { IsTrue (are_sorted self.now.sig self.now.preds self.now.clauses) }
    {
        &self.clauses
    }
}
