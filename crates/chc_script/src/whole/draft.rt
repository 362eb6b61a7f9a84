//! Drafts of scripts: what the commands so far have made.

ghost use Rattle.std.specs.Prelude.{◌≡◌, true, false, None, Ok, IfOk, IsTrue, OnOk};
ghost use Rattle.std.specs.List.{list_all};
ghost use Rattle.chc_sorts.specs.Sorts.{sort_fits};
ghost use Rattle.chc_elab.specs.Sites.{Tells};
ghost use Rattle.chc_state.specs.Names.{AreNamesOf, is_writable_name};
ghost use Rattle.chc_state.specs.WellFormed.{term_fits};
ghost use Rattle.chc_script.specs.Assertions.{KeepsAssertions};
ghost use Rattle.chc_script.specs.Asserts.{clause_added};
ghost use Rattle.chc_script.specs.Commands.{closed, free_name, group_added, horn_set, predicate_added, script, under_logic};
ghost use Rattle.chc_script.specs.Drafted.{IsCondition, SaysScript, are_writable_specs};
ghost use Rattle.chc_script.specs.Drafts.{fresh, is_taken, passed_by_all, symbols_of};
ghost use Rattle.chc_script.specs.Horn.{clause_of};

use crate::horn::{clause_is_well_formed, truth_is_kept};
use crate::script::Script;
use crate::whole::asserted::Asserted;
use crate::whole::limits::hold_to;
use crate::whole::predicates::Predicates;
use crate::whole::refused::refused_group;
use crate::whole::taken::is_fixed;
use chc_elab::{Symbols, fault, named_fault};
use chc_sexpr::{Fault, TextErr};
use chc_sorts::{DataSpec, List, Sig, Sort};
use chc_state::{Clause, State};
use chc_terms::Term;
use std::alloc::Global;
use std::marker::Model;

/// What the commands so far have made: datatypes, predicates, and assertions with their clauses.
#[derive(Drop)]
pub struct Draft {
    /// Whether the logic is set.
    logic: bool,
    sig: Sig,
    preds: Predicates,
    asserted: Asserted,
}

impl Model for Draft {
    ghost use Rattle.std.specs.Coded.{codes};
    ghost use Rattle.chc_sorts.specs.contracts.sort.Sort as sort;
    ghost use Rattle.chc_terms.specs.contracts.term.Term as term;
    ghost use Rattle.chc_script.specs.Drafted.{IsDrafted};
    ghost use Rattle.chc_script.specs.Drafts.{DraftView};

    ghost Value = { DraftView };

    ghost coded = { Prim.hlevel (codes, sort.the_row.coded, term.the_row.coded) };

    ghost view = { λ d. record { logic = d.logic; sig = d.sig; preds = d.preds; asserted = d.asserted } };

    ghost invariant = { λ d. IsDrafted d.sig d.preds d.asserted };
}

impl Draft {
    /// Before the first command.
    pub fn new(alloc: Global) -> Draft
        ensures { result ≡ fresh }
    {
        Draft {
            logic: false,
            sig: Sig::new(alloc),
            preds: Predicates::new(alloc),
            asserted: Asserted::new(alloc),
        }
    }

    /// The signature.
    pub fn sig(&self) -> &Sig
        ensures { result.now ≡ self.now.sig }
    {
        &self.sig
    }

    /// The predicates by name.
    pub fn symbols(&self) -> &Symbols
        ensures { result.now ≡ symbols_of self.now.preds }
    {
        self.preds.symbols()
    }

    /// Nothing where a logic is set. Errors: `At` the place with `NoLogic`; `NoMemory`.
    pub fn check_logic(&self, alloc: Global, place: u64) -> Result<(), TextErr>
        ensures { Tells result (under_logic self.now place) }
    {
        if self.logic {
            return Ok(());
        }
        fault(alloc, place, Fault::NoLogic)
    }

    /// Sets the logic `HORN`. Errors: `At` the place with `UnknownCommand` where it is set; `NoMemory`.
    pub fn set_horn(self, alloc: Global, place: u64) -> Result<Draft, TextErr>
        ensures { Tells result (horn_set self place) }
    {
        if self.logic {
            return named_fault(alloc, place, Fault::UnknownCommand, b"set-logic");
        }
        Ok(Draft {
            logic: true,
            ..self
        })
    }

    /// Whether a function has the name: an operator, `true`, `false`, a constructor, a selector or a predicate.
    #[tactic(auto, using(crate::proofs::TakenNames::taken_by))]
    fn is_taken(&self, name: &[u8]) -> bool
        ensures { result ≡ is_taken self.now name.now }
    {
        if is_fixed(name) {
            return true;
        }
        if self.sig.meaning(name).is_some() {
            return true;
        }
        self.preds.has(name)
    }

    /// Nothing where no function has the name. Errors: `At` the place with `NameTaken`; `NoMemory`.
    pub fn check_free(&self, alloc: Global, place: u64, name: &[u8]) -> Result<(), TextErr>
        ensures value { Tells result (free_name self.now place name.now) }
        ensures new { OnOk result (is_taken self.now name.now ≡ false) }
    {
        if self.is_taken(name) {
            return named_fault(alloc, place, Fault::NameTaken, name);
        }
        Ok(())
    }

    /// Adds a predicate of a new name that can be written. Errors: `At` the place with `TooMany`; `NoMemory`.
    pub fn add_predicate(
        self,
        alloc: Global,
        place: u64,
        name: &[u8],
        sorts: List<Sort>,
    ) -> Result<Draft, TextErr>
        requires new { is_taken self name.now ≡ false }
        requires writable { IsTrue (is_writable_name name.now) }
        requires fitting { list_all (sort_fits self.sig) sorts ≡ true }
        ensures { Tells result (predicate_added self place name.now sorts) }
    {
        hold_to(alloc, place, self.preds.passed_by(&sorts))?;
        let Draft {
            logic,
            sig,
            preds,
            asserted,
        } = self;
        let preds = preds.with(alloc, name, sorts)?;
        Ok(Draft {
            logic,
            sig,
            preds,
            asserted,
        })
    }

    /// Adds a group of datatypes, whose names can be written. Errors: `At` the place with the refusal of the group; `NoMemory`.
    pub fn add_group(self, alloc: Global, place: u64, group: &[DataSpec]) -> Result<Draft, TextErr>
        requires writable { IsTrue (are_writable_specs group.now) }
        ensures { Tells result (group_added self place group.now) }
    {
        let Draft {
            logic,
            mut sig,
            preds,
            asserted,
        } = self;
        match sig.add_group(alloc, group, preds.names()) {
            Ok(()) => Ok(Draft {
                logic,
                sig,
                preds,
                asserted,
            }),
            Err(why) => refused_group(alloc, place, why),
        }
    }

    /// Adds an assertion, whose sorts and numbers fit, with its clause, of weight 1. Errors: `At` the place with `TooMany`; `NoMemory`.
    pub fn add_clause(
        self,
        alloc: Global,
        place: u64,
        term: Term,
        clause: Clause,
    ) -> Result<Draft, TextErr>
        requires sorted { IsCondition self.sig self.preds.decls term }
        requires fitting { IsTrue (term_fits self.sig term) }
        requires says { clause_of term ≡ Ok clause }
        ensures { Tells result (clause_added self place term clause) }
    {
        hold_to(alloc, place, self.asserted.passed_by(&clause))?;
        let Draft {
            logic,
            sig,
            preds,
            asserted,
        } = self;
        let asserted = asserted.with(term, clause)?;
        Ok(Draft {
            logic,
            sig,
            preds,
            asserted,
        })
    }

    /// The script of the draft. Errors: `At` the place with `NoLogic` or `TooMany`; `NoMemory`.
    pub fn close(self, alloc: Global, place: u64) -> Result<Script, TextErr>
        ensures value { Tells result (closed self place) }
        ensures says { IfOk result SaysScript }
        ensures names { IfOk result (λ X. AreNamesOf X.state X.names) }
        ensures keeps { IfOk result KeepsAssertions }
    {
        self.check_logic(alloc, place)?;
        hold_to(alloc, place, self.asserted.passed_by_all(&self.preds))?;
        Ok(self.into_script())
    }

    /// The script of a draft that is within the limits.
    fn into_script(self) -> Script
        requires { passed_by_all self.preds.decls self.asserted.clauses ≡ None }
        ensures value { result ≡ script self }
        ensures says { SaysScript result }
        ensures names { AreNamesOf result.state result.names }
        ensures keeps { KeepsAssertions result }
    {
        clause_is_well_formed();
        truth_is_kept();
        self.sig.well_founded();
        let Draft {
            sig,
            preds,
            asserted,
            ..
        } = self;
        let (names, decls) = preds.into_parts();
        let (assertions, clauses) = asserted.into_parts();
        Script {
            state: State::of_parts(sig, decls, clauses),
            names,
            assertions,
        }
    }
}
