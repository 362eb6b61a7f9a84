//! The heads of groups that stand for applications.

use crate::symbols::Symbol;
use chc_sorts::{ReadOp, Sort};

/// What a group applies to its arguments. Numbers are those of datatype, constructor and field.
#[derive(Drop)]
pub enum Head {
    Operator(ReadOp),
    Make(u32, u32),
    /// A constructor with the sort that `as` names.
    OfSort(u32, u32, Sort),
    Get(u32, u32, u32),
    Is(u32, u32),
    /// Whether a number is divisible by that one, which is above 0.
    Divisible(i128),
    /// The constant array of that sort.
    Constant(Sort),
    Declared(Symbol),
}
