//! Predicates and definitions by name.

ghost use Rattle.std.specs.Prelude.{◌≡◌, [], ◌∷◌, ◌++◌, None, OnOk, OnErr, IfOk, option_copied};
ghost use Rattle.chc_sorts.specs.Names.{look_up};

use chc_sorts::{List, Name, NoMemory, Sort, copy_sorts};
use chc_terms::FunSort;
use indexmap::IndexMap;
use std::alloc::Global;
use std::marker::Model;

/// What a name is declared as.
#[derive(Debug, Drop)]
pub enum Symbol {
    /// A predicate: its number, and the sorts of its positions.
    Pred(u32, List<Sort>),
    /// A definition: its number, and its sorts.
    Def(u64, FunSort),
}

impl Symbol {
    /// An equal symbol on fresh memory. Errors: `NoMemory`.
    pub fn copy(&self, alloc: Global) -> Result<Symbol, NoMemory>
        ensures { IfOk result (λ s. s ≡ self.now) }
    {
        match self {
            Symbol::Pred(p, sorts) => Ok(Symbol::Pred(*p, copy_sorts(alloc, sorts)?)),
            Symbol::Def(k, sorts) => {
                let params = copy_sorts(alloc, &sorts.params)?;
                let result = sorts.result.copy(alloc)?;
                Ok(Symbol::Def(*k, FunSort { params, result }))
            }
        }
    }
}

/// A finite map from names to symbols. Contracts see it as the list of its rows, in the order of adding.
#[derive(Drop)]
pub struct Symbols {
    rows: IndexMap<Vec<u8>, Symbol>,
}

impl Model for Symbols {
    ghost use Rattle.std.specs.Prelude.{List, ℕ, map};
    ghost use Rattle.std.specs.Coded.{codes};
    ghost use Rattle.chc_elab.specs.declared.symbols.Symbol.{Symbol};
    ghost use Rattle.chc_elab.specs.contracts.symbols.Symbol as symbol;

    ghost Value = { List (List ℕ × Symbol) };

    ghost coded = { Prim.hlevel (codes, symbol.the_row.coded) };

    ghost view = { λ t. map (λ row. (row.0.items, row.1)) t.rows.entries };
}

impl Symbols {
    /// No names.
    pub fn new(alloc: Global) -> Symbols
        ensures { result ≡ [] }
    {
        Symbols {
            rows: IndexMap::new(alloc),
        }
    }

    /// Adds a name that isn't there. A refusal changes nothing. Errors: `NoMemory`.
    pub fn add(&mut self, name: Name, symbol: Symbol) -> Result<(), NoMemory>
        requires { look_up self.old name ≡ None }
        ensures added { OnOk result (self.new ≡ self.old ++ (name, symbol) ∷ []) }
        ensures same { OnErr result (self.new ≡ self.old) }
    {
        self.rows.insert(name.into_vec(), symbol)?;
        Ok(())
    }

    /// What the name is declared as, or `None` where it isn't.
    pub fn find(&self, name: &[u8]) -> Option<&Symbol>
        ensures { option_copied result ≡ look_up self.now name.now }
    {
        self.rows.get(name)
    }
}
