//! Lists, boxes and names that contracts see as what they hold; sorts, signatures, operators and limits.
#![tactic(auto)]

mod boxed;
mod build;
mod data;
mod fields;
mod functions;
mod group;
mod limit;
mod limits;
mod list;
mod listing;
mod marks;
mod meaning;
mod memory;
mod named;
mod names;
mod op;
mod op_table;
mod refusal;
mod sig;
mod sort;
mod spec;
mod taken;
#[cfg(test)]
mod tests;

pub use boxed::Boxed;
pub use data::{Ctor, Data, Field};
pub use limit::Limit;
pub use list::{List, Name};
pub use meaning::Meaning;
pub use memory::NoMemory;
pub use names::NameTable;
pub use op::Op;
pub use op_table::{OPS, OpRow, OpTable, ReadOp, name_of, names_of_operators_differ, op_by_name};
pub use refusal::SigErr;
pub use sig::Sig;
pub use sort::{Sort, copy_sorts, same_sort, same_sorts, sort_depth};
pub use spec::{CtorSpec, DataSpec, FieldSpec, SortSpec};
