//! The names of constructors and selectors, entered into the table of a signature.

ghost use Rattle.std.specs.Prelude.{◌≡◌, ◌≤◌, ◌<◌, ◌+◌, true, [], ◌∷◌, ◌++◌, length, map, take, OnOk};
ghost use Rattle.std.specs.List.{flat_map, list_all};
ghost use Rattle.chc_sorts.specs.declared.meaning.Meaning.TheVariants as meaning;
ghost use Rattle.chc_sorts.specs.Names.{each_from};
ghost use Rattle.chc_sorts.specs.Functions.{functions_of};
ghost use Rattle.chc_sorts.specs.Listing.{AreFresh, Begins, names_of, ctor_names, data_names, rows_of, is_short, is_narrow};

use crate::data::{Ctor, Data, Field};
use crate::functions::FunctionTable;
use crate::meaning::Meaning;
use crate::memory::NoMemory;
use std::alloc::Global;

/// Enters the selectors of a constructor. Errors: `NoMemory`.
fn add_fields(
    alloc: Global,
    table: &mut FunctionTable,
    d: u32,
    c: u32,
    fields: &[Field],
) -> Result<(), NoMemory>
    requires few { length fields.now ≤ 64 }
    requires fresh { AreFresh (names_of table.old) (map (λ f. f.name) fields.now) }
    ensures added { OnOk result (table.new ≡ table.old ++ each_from (λ i f. (f.name, meaning.Get d c i) ∷ []) 0 fields.now) }
    ensures begins { Begins table.old table.new }
{
    for (i, field) in fields.iter().enumerate() {
        table.add(alloc, field.name.as_slice(), Meaning::Get(d, c, i as u32))?;
    }
    Ok(())
}

/// Enters a constructor and its selectors. Errors: `NoMemory`.
fn add_ctor(
    alloc: Global,
    table: &mut FunctionTable,
    d: u32,
    c: u32,
    ctor: &Ctor,
) -> Result<(), NoMemory>
    requires few { is_short ctor.now ≡ true }
    requires fresh { AreFresh (names_of table.old) (ctor_names ctor.now) }
    ensures added { OnOk result (table.new ≡ table.old ++ functions_of d c ctor.now) }
    ensures begins { Begins table.old table.new }
{
    table.add(alloc, ctor.name.as_slice(), Meaning::Make(d, c))?;
    add_fields(alloc, table, d, c, ctor.fields.as_slice())?;
    Ok(())
}

/// Enters the constructors of a datatype, with their selectors. Errors: `NoMemory`.
fn add_ctors(
    alloc: Global,
    table: &mut FunctionTable,
    d: u32,
    ctors: &[Ctor],
) -> Result<(), NoMemory>
    requires few { length ctors.now ≤ 256 }
    requires short { list_all is_short ctors.now ≡ true }
    requires fresh { AreFresh (names_of table.old) (flat_map ctor_names ctors.now) }
    ensures added { OnOk result (table.new ≡ table.old ++ each_from (functions_of d) 0 ctors.now) }
    ensures begins { Begins table.old table.new }
{
    for (c, ctor) in ctors.iter().enumerate() {
        add_ctor(alloc, table, d, c as u32, ctor)?;
    }
    Ok(())
}

/// Enters the constructors and selectors of datatypes, of which the first has the number `first`. Errors: `NoMemory`.
pub(crate) fn add_functions(
    alloc: Global,
    table: &mut FunctionTable,
    first: usize,
    datatypes: &[Data],
) -> Result<(), NoMemory>
    requires few { first + length datatypes.now ≤ 1024 }
    requires narrow { list_all is_narrow datatypes.now ≡ true }
    requires fresh { AreFresh (names_of table.old) (flat_map data_names datatypes.now) }
    ensures added { OnOk result (table.new ≡ table.old ++ each_from rows_of first datatypes.now) }
    ensures begins { Begins table.old table.new }
{
    for (i, datatype) in datatypes.iter().enumerate() {
        add_ctors(alloc, table, (first + i) as u32, datatype.ctors.as_slice())?;
    }
    Ok(())
}
