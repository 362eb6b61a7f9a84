//! Sorts and datatypes as they are written: their sorts are names still.

use crate::boxed::Boxed;
use crate::list::{List, Name};

/// A sort as it is written.
#[derive(Debug, Drop)]
pub enum SortSpec {
    /// `Bool`, `Int`, or the name of a datatype.
    Named(Name),
    /// An array: the sorts of its indices and of its elements.
    Array(Boxed<Self>, Boxed<Self>),
}

/// A field as it is written: its selector's name, and its sort.
#[derive(Debug, Drop)]
pub struct FieldSpec {
    pub name: Name,
    pub sort: SortSpec,
}

/// A constructor as it is written: its name, and its fields in order.
#[derive(Debug, Drop)]
pub struct CtorSpec {
    pub name: Name,
    pub fields: List<FieldSpec>,
}

/// A datatype as it is written: its name, and its constructors in order.
#[derive(Debug, Drop)]
pub struct DataSpec {
    pub name: Name,
    pub ctors: List<CtorSpec>,
}
