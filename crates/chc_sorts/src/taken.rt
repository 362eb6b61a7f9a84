//! The names that a group declares: none may be taken.

ghost use Rattle.std.specs.Prelude.{◌≡◌, [], ◌∷◌, ◌++◌, map, IfOk, OnOk};
ghost use Rattle.std.specs.List.{flat_map};
ghost use Rattle.chc_sorts.specs.Names.{has_name};
ghost use Rattle.chc_sorts.specs.Groups.{Declared, fixed_sorts, fixed_functions, ctor_declares, data_declares, declared_by};
ghost use Rattle.chc_sorts.specs.Checks.{HaveSameNames, Passes, taken_with, name_found};

use crate::list::Name;
use crate::memory::NoMemory;
use crate::names::NameTable;
use crate::op_table::op_by_name;
use crate::refusal::SigErr;
use crate::sig::Sig;
use crate::spec::{CtorSpec, DataSpec, FieldSpec};
use std::alloc::Global;

/// Names by name space: those of datatypes, the group's among them, and those of the group's functions.
#[derive(Drop)]
pub(crate) struct NameSpaces {
    pub(crate) sorts: NameTable,
    pub(crate) functions: NameTable,
}

/// A table of names, of which some may be equal. Errors: `NoMemory`.
pub(crate) fn table_of(alloc: Global, names: &[Name]) -> Result<NameTable, NoMemory>
    ensures { IfOk result (λ t. HaveSameNames t names.now) }
{
    let mut table = NameTable::new(alloc);
    for name in names {
        add_once(alloc, &mut table, name)?;
    }
    Ok(table)
}

/// Adds a name where it isn't there. Errors: `NoMemory`.
fn add_once(alloc: Global, table: &mut NameTable, name: &Name) -> Result<(), NoMemory>
    ensures { OnOk result (HaveSameNames table.new (table.old ++ name.now ∷ [])) }
{
    if table.has(name.as_slice()) {
        return Ok(());
    }
    table.add(alloc, name.as_slice())
}

/// Whether every signature has a sort of that name.
#[tactic(auto, unfolding(crate::specs::Groups::fixed_sorts))]
fn is_fixed_sort(name: &[u8]) -> bool
    ensures { result ≡ has_name fixed_sorts name.now }
{
    if name == b"Bool".as_slice() {
        return true;
    }
    if name == b"Int".as_slice() {
        return true;
    }
    name == b"Array".as_slice()
}

/// Whether every signature has a function of that name: an operator, `true` or `false`.
fn is_fixed_function(name: &[u8]) -> bool
    ensures { result ≡ has_name fixed_functions name.now }
{
    if name == b"true".as_slice() {
        return true;
    }
    if name == b"false".as_slice() {
        return true;
    }
    op_by_name(name).is_some()
}

/// Whether a sort has that name: one of those that every signature has, or a datatype.
#[tactic(auto, using(crate::proofs::TakenLaws::has_two))]
fn is_sort_taken(sorts: &NameTable, name: &[u8]) -> bool
    ensures { result ≡ has_name (fixed_sorts ++ sorts.now) name.now }
{
    if is_fixed_sort(name) {
        return true;
    }
    sorts.has(name)
}

/// Whether a function has that name: one of the signature's, a predicate, or one of the group's so far.
#[tactic(auto, using(crate::proofs::TakenLaws::has_four))]
fn is_function_taken(sig: &Sig, preds: &NameTable, own: &NameSpaces, name: &[u8]) -> bool
    ensures { result ≡ has_name (taken_with sig.now preds.now own.now).functions name.now }
{
    if is_fixed_function(name) {
        return true;
    }
    if sig.functions().has(name) {
        return true;
    }
    if preds.has(name) {
        return true;
    }
    own.functions.has(name)
}

/// Declares a sort. Errors: `NameTaken`, `NoMemory`.
#[tactic(auto, using(crate::proofs::TakenLaws::has_two))]
fn declare_sort(
    alloc: Global,
    sig: &Sig,
    preds: &NameTable,
    own: &mut NameSpaces,
    name: &Name,
) -> Result<(), SigErr>
    ensures passes { Passes (name_found sig.now preds.now) own.old (Declared.of_sort name.now ∷ []) result own.new }
    ensures added { OnOk result (own.new.sorts ≡ own.old.sorts ++ name.now ∷ []) }
{
    if is_sort_taken(&own.sorts, name.as_slice()) {
        return Err(SigErr::NameTaken(name.copy(alloc)?));
    }
    own.sorts.add(alloc, name.as_slice())?;
    Ok(())
}

/// Declares a function. Errors: `NameTaken`, `NoMemory`.
#[tactic(auto, using(crate::proofs::TakenLaws::has_four))]
fn declare_function(
    alloc: Global,
    sig: &Sig,
    preds: &NameTable,
    own: &mut NameSpaces,
    name: &Name,
) -> Result<(), SigErr>
    ensures passes { Passes (name_found sig.now preds.now) own.old (Declared.of_function name.now ∷ []) result own.new }
    ensures sorts { OnOk result (own.new.sorts ≡ own.old.sorts) }
{
    if is_function_taken(sig, preds, own, name.as_slice()) {
        return Err(SigErr::NameTaken(name.copy(alloc)?));
    }
    own.functions.add(alloc, name.as_slice())?;
    Ok(())
}

/// Declares a constructor's fields. Errors: `NameTaken`, `NoMemory`.
fn declare_fields(
    alloc: Global,
    sig: &Sig,
    preds: &NameTable,
    own: &mut NameSpaces,
    fields: &[FieldSpec],
) -> Result<(), SigErr>
    ensures passes { Passes (name_found sig.now preds.now) own.old (map (λ f. Declared.of_function f.name) fields.now) result own.new }
    ensures sorts { OnOk result (own.new.sorts ≡ own.old.sorts) }
{
    for field in fields {
        declare_function(alloc, sig, preds, own, &field.name)?;
    }
    Ok(())
}

/// Declares a constructor and its fields. Errors: `NameTaken`, `NoMemory`.
fn declare_ctor(
    alloc: Global,
    sig: &Sig,
    preds: &NameTable,
    own: &mut NameSpaces,
    ctor: &CtorSpec,
) -> Result<(), SigErr>
    ensures passes { Passes (name_found sig.now preds.now) own.old (ctor_declares ctor.now) result own.new }
    ensures sorts { OnOk result (own.new.sorts ≡ own.old.sorts) }
{
    declare_function(alloc, sig, preds, own, &ctor.name)?;
    declare_fields(alloc, sig, preds, own, ctor.fields.as_slice())?;
    Ok(())
}

/// Declares constructors and their fields. Errors: `NameTaken`, `NoMemory`.
fn declare_ctors(
    alloc: Global,
    sig: &Sig,
    preds: &NameTable,
    own: &mut NameSpaces,
    ctors: &[CtorSpec],
) -> Result<(), SigErr>
    ensures passes { Passes (name_found sig.now preds.now) own.old (flat_map ctor_declares ctors.now) result own.new }
    ensures sorts { OnOk result (own.new.sorts ≡ own.old.sorts) }
{
    for ctor in ctors {
        declare_ctor(alloc, sig, preds, own, ctor)?;
    }
    Ok(())
}

/// Declares a datatype with its constructors and fields. Errors: `NameTaken`, `NoMemory`.
fn declare_data(
    alloc: Global,
    sig: &Sig,
    preds: &NameTable,
    own: &mut NameSpaces,
    datatype: &DataSpec,
) -> Result<(), SigErr>
    ensures passes { Passes (name_found sig.now preds.now) own.old (data_declares datatype.now) result own.new }
    ensures added { OnOk result (own.new.sorts ≡ own.old.sorts ++ datatype.now.name ∷ []) }
{
    declare_sort(alloc, sig, preds, own, &datatype.name)?;
    declare_ctors(alloc, sig, preds, own, datatype.ctors.as_slice())?;
    Ok(())
}

/// Declares the datatypes of a group. Errors: `NameTaken`, `NoMemory`.
pub(crate) fn declare_all(
    alloc: Global,
    sig: &Sig,
    preds: &NameTable,
    own: &mut NameSpaces,
    group: &[DataSpec],
) -> Result<(), SigErr>
    ensures passes { Passes (name_found sig.now preds.now) own.old (declared_by group.now) result own.new }
    ensures added { OnOk result (own.new.sorts ≡ own.old.sorts ++ map (λ t. t.name) group.now) }
{
    for datatype in group {
        declare_data(alloc, sig, preds, own, datatype)?;
    }
    Ok(())
}
