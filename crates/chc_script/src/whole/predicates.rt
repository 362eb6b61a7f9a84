//! The predicates that a script declares.

ghost use Rattle.std.specs.Prelude.{◌≡◌, ◌<◌, ◌≤◌, false, length, IfOk};
ghost use Rattle.chc_sorts.specs.Names.{has_name};
ghost use Rattle.chc_state.specs.Limits.{live_count};
ghost use Rattle.chc_script.specs.Drafts.{ArePredicates, PredicatesView, no_predicates, passed_by_predicate, symbols_of, with_predicate};

use crate::whole::names::name_of;
use chc_elab::{Symbol, Symbols};
use chc_sorts::{Limit, List, NoMemory, Sort, copy_sorts};
use chc_state::{Names, PredDecl};
use std::alloc::Global;
use std::marker::Model;

/// Predicates by number, all of them live, with their names and a look-up by name. There are at most 65,536, and none has
/// more than 1,024 positions.
#[derive(Drop)]
pub struct Predicates {
    names: Names,
    decls: List<PredDecl>,
    symbols: Symbols,
}

impl Model for Predicates {
    ghost use Rattle.std.specs.Coded.{codes};
    ghost use Rattle.chc_sorts.specs.contracts.sort.Sort as sort;
    ghost use Rattle.chc_script.specs.Drafts.{ArePredicates, PredicatesView};

    ghost Value = { PredicatesView };

    ghost coded = { Prim.hlevel (codes, sort.the_row.coded) };

    ghost view = { λ p. record { names = p.names; decls = p.decls } };

    ghost invariant = { λ p. ArePredicates (record { names = p.names; decls = p.decls }) p.symbols };
}

impl Predicates {
    /// No predicates.
    pub fn new(alloc: Global) -> Predicates
        ensures { result ≡ no_predicates }
    {
        Predicates {
            names: List::new(alloc),
            decls: List::new(alloc),
            symbols: Symbols::new(alloc),
        }
    }

    /// The names by number.
    pub fn names(&self) -> &Names
        ensures { result.now ≡ self.now.names }
    {
        &self.names
    }

    /// The predicates by name.
    pub fn symbols(&self) -> &Symbols
        ensures { result.now ≡ symbols_of self.now }
    {
        &self.symbols
    }

    /// How many there are, all of them live.
    pub fn len(&self) -> usize
        ensures value { result ≡ length self.now.decls }
        ensures live { result ≡ live_count self.now.decls }
        ensures few { result ≤ 65536 }
    {
        self.decls.len()
    }

    /// Whether a predicate has the name.
    pub fn has(&self, name: &[u8]) -> bool
        ensures { result ≡ has_name self.now.names name.now }
    {
        self.symbols.find(name).is_some()
    }

    /// The first limit that one more predicate with so many positions passes.
    pub fn passed_by(&self, sorts: &List<Sort>) -> Option<Limit>
        ensures { result ≡ passed_by_predicate self.now.decls sorts.now }
    {
        if sorts.len() > 1_024 {
            Some(Limit::L8)
        } else if self.decls.len() >= 65_536 {
            Some(Limit::L7)
        } else {
            None
        }
    }

    /// These predicates and one more, of a new name, with positions of these sorts.
    pub fn with(self, alloc: Global, name: &[u8], sorts: List<Sort>) -> Result<Predicates, NoMemory>
        requires fresh { has_name self.names name.now ≡ false }
        requires short { length sorts ≤ 1024 }
        requires few { length self.decls < 65536 }
        ensures { IfOk result (λ more. more ≡ with_predicate self name.now sorts) }
    {
        let Predicates {
            mut names,
            mut decls,
            mut symbols,
        } = self;
        let symbol = Symbol::Pred(decls.len() as u32, copy_sorts(alloc, &sorts)?);
        symbols.add(name_of(alloc, name)?, symbol)?;
        names.push(name_of(alloc, name)?)?;
        decls.push(PredDecl { sorts, live: true })?;
        Ok(Predicates {
            names,
            decls,
            symbols,
        })
    }

    /// The names and the predicates, each by number.
    pub fn into_parts(self) -> (Names, List<PredDecl>)
        ensures names { result.0 ≡ self.names }
        ensures decls { result.1 ≡ self.decls }
    {
        let Predicates { names, decls, .. } = self;
        (names, decls)
    }
}
