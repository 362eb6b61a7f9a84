//! Constructors and selectors by name.

ghost use Rattle.std.specs.Prelude.{◌≡◌, false, [], ◌∷◌, ◌++◌, length, take, map, IfOk, OnOk, OnErr};
ghost use Rattle.chc_sorts.specs.Names.{has_name, look_up};

use crate::meaning::Meaning;
use crate::memory::NoMemory;
use indexmap::IndexMap;
use std::alloc::Global;
use std::marker::Model;

/// What names stand for, in order of adding, with a look-up by name. Contracts see it as the list of its rows.
#[derive(Debug, Drop)]
pub struct FunctionTable {
    rows: IndexMap<Vec<u8>, Meaning>,
}

impl Model for FunctionTable {
    ghost use Rattle.std.specs.Prelude.{List, ℕ, map};
    ghost use Rattle.std.specs.Coded.{codes};
    ghost use Rattle.chc_sorts.specs.declared.meaning.Meaning.{Meaning};
    ghost use Rattle.chc_sorts.specs.contracts.meaning.Meaning as meaning;

    ghost Value = { List (List ℕ × Meaning) };

    ghost coded = { Prim.hlevel (codes, meaning.the_row.coded) };

    ghost view = { λ t. map (λ row. (row.0.items, row.1)) t.rows.entries };
}

impl FunctionTable {
    /// No names.
    pub fn new(alloc: Global) -> FunctionTable
        ensures { result ≡ [] }
    {
        FunctionTable {
            rows: IndexMap::new(alloc),
        }
    }

    /// How many names there are.
    pub fn len(&self) -> usize
        ensures { result ≡ length self.now }
    {
        self.rows.len()
    }

    /// What the name stands for, or `None` where it isn't there.
    pub fn get(&self, name: &[u8]) -> Option<Meaning>
        ensures { result ≡ look_up self.now name.now }
    {
        self.rows.get(name).copied()
    }

    /// Whether the name is there.
    pub fn has(&self, name: &[u8]) -> bool
        ensures { result ≡ has_name (map (λ row. row.0) self.now) name.now }
    {
        self.rows.contains_key(name)
    }

    /// Adds a name that isn't there, with what it stands for. After a refusal nothing has changed. Errors: `NoMemory`.
    pub fn add(&mut self, alloc: Global, name: &[u8], meaning: Meaning) -> Result<(), NoMemory>
        requires { has_name (map (λ row. row.0) self.old) name.now ≡ false }
        ensures added { OnOk result (self.new ≡ self.old ++ (name.now, meaning) ∷ []) }
        ensures same { OnErr result (self.new ≡ self.old) }
    {
        let mut bytes = Vec::new(alloc);
        bytes.extend_from_slice(name)?;
        self.rows.insert(bytes, meaning)?;
        Ok(())
    }

    /// Keeps the first `len` names, or all where there are no more.
    pub fn truncate(&mut self, len: usize)
        ensures { self.new ≡ take len self.old }
    {
        self.rows.truncate(len);
    }

    /// An equal table on fresh memory.
    pub fn copy(&self) -> Result<FunctionTable, NoMemory>
        ensures { IfOk result (λ t. t ≡ self.now) }
    {
        let rows = self.rows.clone()?;
        Ok(FunctionTable { rows })
    }
}
