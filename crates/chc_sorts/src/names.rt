//! Names with numbers.

ghost use Rattle.std.specs.Prelude.{◌≡◌, ◌<◌, false, [], ◌∷◌, ◌++◌, length, take, IfOk, IfSome, OnOk, OnErr, is_some};
ghost use Rattle.chc_sorts.specs.Names.{has_name, number_of};

use crate::memory::NoMemory;
use indexmap::IndexSet;
use std::alloc::Global;
use std::marker::Model;

/// Names by number, in order of adding, with a look-up by name. Contracts see it as the list of the names.
#[derive(Debug, Drop)]
pub struct NameTable {
    names: IndexSet<Vec<u8>>,
}

impl Model for NameTable {
    ghost use Rattle.std.specs.Prelude.{List, ℕ, map};
    ghost use Rattle.std.specs.Coded.{coded_list, coded_ℕ};

    ghost Value = { List (List ℕ) };

    ghost coded = { coded_list (coded_list coded_ℕ) };

    ghost view = { λ t. map (λ name. name.items) t.names.keys };
}

impl NameTable {
    /// No names.
    pub fn new(alloc: Global) -> NameTable
        ensures { result ≡ [] }
    {
        NameTable {
            names: IndexSet::new(alloc),
        }
    }

    /// How many names there are.
    pub fn len(&self) -> usize
        ensures { result ≡ length self.now }
    {
        self.names.len()
    }

    /// The number of a name, or `None` where it isn't there.
    pub fn number_of(&self, name: &[u8]) -> Option<usize>
        ensures value { result ≡ number_of self.now name.now }
        ensures within { IfSome result (λ n. n < length self.now) }
        ensures found { is_some result ≡ has_name self.now name.now }
    {
        self.names.get_index_of(name)
    }

    /// Whether the name is there.
    pub fn has(&self, name: &[u8]) -> bool
        ensures { result ≡ has_name self.now name.now }
    {
        self.names.contains(name)
    }

    /// Adds a name that isn't there, with the next number. After a refusal nothing has changed. Errors: `NoMemory`.
    pub fn add(&mut self, alloc: Global, name: &[u8]) -> Result<(), NoMemory>
        requires { has_name self.old name.now ≡ false }
        ensures added { OnOk result (self.new ≡ self.old ++ name.now ∷ []) }
        ensures same { OnErr result (self.new ≡ self.old) }
    {
        let mut bytes = Vec::new(alloc);
        bytes.extend_from_slice(name)?;
        self.names.insert(bytes)?;
        Ok(())
    }

    /// Keeps the first `len` names, or all where there are no more.
    pub fn truncate(&mut self, len: usize)
        ensures { self.new ≡ take len self.old }
    {
        self.names.truncate(len);
    }

    /// An equal table on fresh memory.
    pub fn copy(&self) -> Result<NameTable, NoMemory>
        ensures { IfOk result (λ t. t ≡ self.now) }
    {
        let names = self.names.clone()?;
        Ok(NameTable { names })
    }
}
