//! Datatypes.

ghost use Rattle.std.specs.Prelude.{◌≡◌, IfOk};

use crate::list::{List, Name};
use crate::memory::NoMemory;
use crate::sort::Sort;
use std::alloc::Global;

/// A field of a constructor: its selector's name, and its sort.
#[derive(Debug, Drop)]
pub struct Field {
    pub name: Name,
    pub sort: Sort,
}

/// A constructor: its name, and its fields in order.
#[derive(Debug, Drop)]
pub struct Ctor {
    pub name: Name,
    pub fields: List<Field>,
}

/// A datatype: its name, and its constructors in order.
#[derive(Debug, Drop)]
pub struct Data {
    pub name: Name,
    pub ctors: List<Ctor>,
}

impl Field {
    /// An equal field on fresh memory.
    pub fn copy(&self, alloc: Global) -> Result<Field, NoMemory>
        ensures { IfOk result (λ f. f ≡ self.now) }
    {
        let name = self.name.copy(alloc)?;
        let sort = self.sort.copy(alloc)?;
        Ok(Field { name, sort })
    }
}

/// Equal fields on fresh memory, in the same order.
fn copy_fields(alloc: Global, fields: &List<Field>) -> Result<List<Field>, NoMemory>
    ensures { IfOk result (λ l. l ≡ fields.now) }
{
    let mut copies = List::new(alloc);
    for field in fields.as_slice() {
        copies.push(field.copy(alloc)?)?;
    }
    Ok(copies)
}

impl Ctor {
    /// An equal constructor on fresh memory.
    pub fn copy(&self, alloc: Global) -> Result<Ctor, NoMemory>
        ensures { IfOk result (λ k. k ≡ self.now) }
    {
        let name = self.name.copy(alloc)?;
        let fields = copy_fields(alloc, &self.fields)?;
        Ok(Ctor { name, fields })
    }
}

/// Equal constructors on fresh memory, in the same order.
fn copy_ctors(alloc: Global, ctors: &List<Ctor>) -> Result<List<Ctor>, NoMemory>
    ensures { IfOk result (λ l. l ≡ ctors.now) }
{
    let mut copies = List::new(alloc);
    for ctor in ctors.as_slice() {
        copies.push(ctor.copy(alloc)?)?;
    }
    Ok(copies)
}

impl Data {
    /// An equal datatype on fresh memory.
    pub fn copy(&self, alloc: Global) -> Result<Data, NoMemory>
        ensures { IfOk result (λ d. d ≡ self.now) }
    {
        let name = self.name.copy(alloc)?;
        let ctors = copy_ctors(alloc, &self.ctors)?;
        Ok(Data { name, ctors })
    }
}

/// Equal datatypes on fresh memory, in the same order.
pub fn copy_datatypes(alloc: Global, datatypes: &List<Data>) -> Result<List<Data>, NoMemory>
    ensures { IfOk result (λ l. l ≡ datatypes.now) }
{
    let mut copies = List::new(alloc);
    for datatype in datatypes.as_slice() {
        copies.push(datatype.copy(alloc)?)?;
    }
    Ok(copies)
}
