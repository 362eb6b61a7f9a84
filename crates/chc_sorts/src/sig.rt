//! Signatures: datatypes in groups, each of which has a value.

ghost use Rattle.std.specs.Prelude.{◌≡◌, true, IfOk, OnSome, option_copied, slice_get};
ghost use Rattle.std.specs.List.{list_all};
ghost use Rattle.chc_sorts.specs.declared.sort.Sort.TheVariants as sort;
ghost use Rattle.chc_sorts.specs.Signature.{Signature, IsInhabited, no_datatypes};
ghost use Rattle.chc_sorts.specs.Functions.{functions, meaning_of};
ghost use Rattle.chc_sorts.specs.Listing.{is_narrow};
ghost use Rattle.chc_sorts.specs.WellFounded.{IsWellFounded};
ghost use Rattle.chc_sorts.specs.Named.{Answers, datatype_names, sort_read};
ghost use Rattle.chc_sorts.specs.Groups.{AddsGroup};
ghost use Rattle.chc_sorts.specs.Made.{CanBeMade};

use crate::build::declared;
use crate::data::{Data, copy_datatypes};
use crate::functions::FunctionTable;
use crate::group::{check_group, extend};
use crate::list::{List, Name};
use crate::meaning::Meaning;
use crate::memory::NoMemory;
use crate::named::sort_read;
use crate::names::NameTable;
use crate::refusal::SigErr;
use crate::sort::Sort;
use crate::spec::{DataSpec, SortSpec};
use crate::taken::table_of;
use std::alloc::Global;
use std::marker::Model;

/// Datatypes in groups, in order of declaration. Each datatype has a value.
#[derive(Debug, Drop)]
pub struct Sig {
    datatypes: List<Data>,
    groups: List<u32>,
    /// The names of the datatypes.
    names: NameTable,
    /// The constructors and selectors, by name.
    functions: FunctionTable,
}

impl Model for Sig {
    ghost use Rattle.chc_sorts.specs.Signature.{Signature};
    ghost use Rattle.chc_sorts.specs.Kept.{IsKept};
    ghost use Rattle.chc_sorts.specs.contracts.sort.Sort as sort;
    ghost use Rattle.std.specs.Coded.{codes};

    ghost Value = { Signature };

    ghost coded = { Prim.hlevel (codes, sort.the_row.coded) };

    ghost view = { λ s. record { datatypes = s.datatypes; groups = s.groups } };

    ghost invariant = { λ s. IsKept (record { datatypes = s.datatypes; groups = s.groups }) s.names s.functions };
}

impl Sig {
    /// The signature without datatypes.
    pub fn new(alloc: Global) -> Sig
        ensures { result ≡ no_datatypes }
    {
        Sig {
            datatypes: List::new(alloc),
            groups: List::new(alloc),
            names: NameTable::new(alloc),
            functions: FunctionTable::new(alloc),
        }
    }

    /// The datatypes by number. Each has at most 256 constructors, and each of these at most 64 fields.
    pub fn datatypes(&self) -> &List<Data>
        ensures value { result.now ≡ self.now.datatypes }
        ensures narrow { list_all is_narrow result.now ≡ true }
    {
        &self.datatypes
    }

    /// Every datatype has a value, and the sort of every field names datatypes of the signature alone. So every sort
    /// of the signature has a value.
    pub fn well_founded(&self)
        ensures { IsWellFounded self.now }
    {
        let _datatypes = &self.datatypes;
    }

    /// The groups have made the signature, one after the other: nothing stood against any of them.
    pub fn made_of_groups(&self)
        ensures { CanBeMade self.now }
    {
        let _datatypes = &self.datatypes;
    }

    /// The sizes of the groups, in order of declaration.
    pub fn groups(&self) -> &List<u32>
        ensures { result.now ≡ self.now.groups }
    {
        &self.groups
    }

    /// The names of the datatypes, by number.
    pub(crate) fn names(&self) -> &NameTable
        ensures { result.now ≡ datatype_names self.now }
    {
        &self.names
    }

    /// The constructors and selectors, by name.
    pub(crate) fn functions(&self) -> &FunctionTable
        ensures { result.now ≡ functions self.now }
    {
        &self.functions
    }

    /// The datatype of number `d`, counted from 0, or `None` where there is none. It has a value.
    pub fn datatype(&self, d: u32) -> Option<&Data>
        ensures value { option_copied result ≡ slice_get self.now.datatypes d }
        ensures inhabited { OnSome result (∥ IsInhabited self.now.datatypes (sort.Data d) ∥₁) }
    {
        self.datatypes.get(d as usize)
    }

    /// The constructor or selector of a name, or `None` where it is neither's.
    pub fn meaning(&self, name: &[u8]) -> Option<Meaning>
        ensures { result ≡ meaning_of self.now name.now }
    {
        self.functions.get(name)
    }

    /// The sort that `spec` stands for. Errors, the first of them: `UnknownSort` with the first name, from left to
    /// right, that no sort has; `ArrayIndex` where an array's index sort isn't Int; `SortTooDeep` where the sort
    /// is more than 16 deep; `NoMemory`.
    pub fn sort(&self, alloc: Global, spec: &SortSpec) -> Result<Sort, SigErr>
        ensures { Answers result (sort_read (datatype_names self.now) spec.now) }
    {
        sort_read(alloc, &self.names, spec)
    }

    /// Adds the datatypes of one group, whose fields may be of the group's own datatypes. `preds` holds the names of
    /// the predicates declared so far, which are taken. After a refusal nothing has changed. Errors, the first of
    /// them: `NameTaken` with the first name that is taken in its name space, where a datatype stands before its
    /// constructors and a constructor before its fields; `UnknownSort` with the first name that no sort has;
    /// `ArrayIndex` where an array's index sort isn't Int; `SortTooDeep` where a field's sort is more than 16 deep;
    /// `TooMany` with the first limit of datatypes, constructors and fields that is passed; `NotWellFounded`
    /// with the first datatype that has no value; `NoMemory`.
    pub fn add_group(
        &mut self,
        alloc: Global,
        group: &[DataSpec],
        preds: &List<Name>,
    ) -> Result<(), SigErr>
        ensures { AddsGroup self.old group.now preds.now result self.new }
    {
        let preds = table_of(alloc, preds.as_slice())?;
        let names = check_group(alloc, self, &preds, group)?;
        let made = declared(alloc, &names, group)?;
        extend(
            alloc,
            &mut self.datatypes,
            &mut self.groups,
            &mut self.functions,
            made,
        )?;
        self.names = names;
        Ok(())
    }

    /// An equal signature on fresh memory.
    pub fn copy(&self, alloc: Global) -> Result<Sig, NoMemory>
        ensures { IfOk result (λ s. s ≡ self.now) }
    {
        let datatypes = copy_datatypes(alloc, &self.datatypes)?;
        let groups = self.groups.copy(alloc)?;
        let names = self.names.copy()?;
        let functions = self.functions.copy()?;
        Ok(Sig {
            datatypes,
            groups,
            names,
            functions,
        })
    }
}
