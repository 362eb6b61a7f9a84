//! Values.

ghost use Rattle.std.specs.Prelude.{◌≡◌, IfOk};

use chc_sorts::{Boxed, List, NoMemory};
use std::alloc::Global;

/// A value. An Int is unbounded in the meaning, so in contracts an `i128` here is any integer.
#[derive(Debug, Drop)]
pub enum Value {
    Bool(bool),
    Int(i128),
    /// A datatype's value: the numbers of the datatype and the constructor, and the fields' values.
    Data(u32, u32, List<Self>),
    /// An array over Int: the value at every index but those of the exceptions, which stand with
    /// ascending indices and differ from it.
    Array(Boxed<Self>, List<(i128, Self)>),
}

/// Values in order.
pub type Values = List<Value>;

/// The exceptions of an array value: index and value.
pub type Entries = List<(i128, Value)>;

impl Value {
    /// An equal value on fresh memory.
    #[cycle(copy)]
    pub fn copy(&self, alloc: Global) -> Result<Value, NoMemory>
        ensures { IfOk result (λ v. v ≡ self.now) }
    {
        match self {
            Value::Bool(b) => Ok(Value::Bool(*b)),
            Value::Int(n) => Ok(Value::Int(*n)),
            Value::Data(d, c, fields) => Ok(Value::Data(*d, *c, copy_values(alloc, fields)?)),
            Value::Array(default, exceptions) => {
                let default = default.get().copy(alloc)?;
                let exceptions = copy_entries(alloc, exceptions)?;
                Ok(Value::Array(Boxed::new(alloc, default)?, exceptions))
            }
        }
    }
}

/// Equal values on fresh memory, in the same order.
#[cycle(copy)]
pub fn copy_values(alloc: Global, values: &Values) -> Result<Values, NoMemory>
    ensures { IfOk result (λ l. l ≡ values.now) }
{
    let mut copies = List::new(alloc);
    for value in values.as_slice() {
        copies.push(value.copy(alloc)?)?;
    }
    Ok(copies)
}

/// Equal exceptions on fresh memory, in the same order.
#[cycle(copy)]
fn copy_entries(alloc: Global, entries: &Entries) -> Result<Entries, NoMemory>
    ensures { IfOk result (λ l. l ≡ entries.now) }
{
    let mut copies = List::new(alloc);
    for entry in entries.as_slice() {
        copies.push((entry.0, entry.1.copy(alloc)?))?;
    }
    Ok(copies)
}
