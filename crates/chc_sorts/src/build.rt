//! The datatypes that a group declares.

ghost use Rattle.std.specs.Prelude.{◌≡◌, ◌<◌, ◌^◌, length, map, IfOk};
ghost use Rattle.chc_sorts.specs.Groups.{field_declared, ctor_declared, data_declared};

use crate::data::{Ctor, Data, Field};
use crate::list::List;
use crate::memory::NoMemory;
use crate::named::sort_meant;
use crate::names::NameTable;
use crate::sort::Sort;
use crate::spec::{CtorSpec, DataSpec, FieldSpec};
use std::alloc::Global;

/// The field that is declared. Errors: `NoMemory`.
fn declared_field(alloc: Global, names: &NameTable, field: &FieldSpec) -> Result<Field, NoMemory>
    requires { length names.now < 2 ^ 32 }
    ensures { IfOk result (λ f. f ≡ field_declared names.now field.now) }
{
    let name = field.name.copy(alloc)?;
    let sort = sort_meant(alloc, names, &field.sort)?.unwrap_or(Sort::Bool);
    Ok(Field { name, sort })
}

/// The fields that are declared, in order. Errors: `NoMemory`.
fn declared_fields(
    alloc: Global,
    names: &NameTable,
    fields: &[FieldSpec],
) -> Result<List<Field>, NoMemory>
    requires { length names.now < 2 ^ 32 }
    ensures { IfOk result (λ l. l ≡ map (field_declared names.now) fields.now) }
{
    let mut made = List::new(alloc);
    for field in fields {
        made.push(declared_field(alloc, names, field)?)?;
    }
    Ok(made)
}

/// The constructor that is declared. Errors: `NoMemory`.
fn declared_ctor(alloc: Global, names: &NameTable, ctor: &CtorSpec) -> Result<Ctor, NoMemory>
    requires { length names.now < 2 ^ 32 }
    ensures { IfOk result (λ k. k ≡ ctor_declared names.now ctor.now) }
{
    let name = ctor.name.copy(alloc)?;
    let fields = declared_fields(alloc, names, ctor.fields.as_slice())?;
    Ok(Ctor { name, fields })
}

/// The constructors that are declared, in order. Errors: `NoMemory`.
fn declared_ctors(
    alloc: Global,
    names: &NameTable,
    ctors: &[CtorSpec],
) -> Result<List<Ctor>, NoMemory>
    requires { length names.now < 2 ^ 32 }
    ensures { IfOk result (λ l. l ≡ map (ctor_declared names.now) ctors.now) }
{
    let mut made = List::new(alloc);
    for ctor in ctors {
        made.push(declared_ctor(alloc, names, ctor)?)?;
    }
    Ok(made)
}

/// The datatype that is declared. Errors: `NoMemory`.
fn declared_data(alloc: Global, names: &NameTable, datatype: &DataSpec) -> Result<Data, NoMemory>
    requires { length names.now < 2 ^ 32 }
    ensures { IfOk result (λ t. t ≡ data_declared names.now datatype.now) }
{
    let name = datatype.name.copy(alloc)?;
    let ctors = declared_ctors(alloc, names, datatype.ctors.as_slice())?;
    Ok(Data { name, ctors })
}

/// The datatypes that a group declares, where its sorts are known. Errors: `NoMemory`.
pub(crate) fn declared(
    alloc: Global,
    names: &NameTable,
    group: &[DataSpec],
) -> Result<List<Data>, NoMemory>
    requires { length names.now < 2 ^ 32 }
    ensures { IfOk result (λ l. l ≡ map (data_declared names.now) group.now) }
{
    let mut made = List::new(alloc);
    for datatype in group {
        made.push(declared_data(alloc, names, datatype)?)?;
    }
    Ok(made)
}
