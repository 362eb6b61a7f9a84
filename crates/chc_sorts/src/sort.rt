//! The sorts of terms.

ghost use Rattle.std.specs.Prelude.{◌≡◌, ◌-◌, ◌^◌, min, IfOk};
ghost use Rattle.chc_sorts.specs.Sorts.{same_sort, same_sorts, sort_depth};

use crate::boxed::Boxed;
use crate::list::List;
use crate::memory::NoMemory;
use std::alloc::Global;

#[cfg(test)]
mod tests;

/// A sort. Arrays are indexed by Int, and `Array` holds the sort of the elements.
#[derive(Debug, Drop)]
pub enum Sort {
    Bool,
    Int,
    /// The datatype of that number in the signature.
    Data(u32),
    Array(Boxed<Self>),
}

impl Sort {
    /// An equal sort on fresh memory.
    pub fn copy(&self, alloc: Global) -> Result<Sort, NoMemory>
        ensures { IfOk result (λ s. s ≡ self.now) }
    {
        match self {
            Sort::Bool => Ok(Sort::Bool),
            Sort::Int => Ok(Sort::Int),
            Sort::Data(d) => Ok(Sort::Data(*d)),
            Sort::Array(element) => {
                let element = element.get().copy(alloc)?;
                Ok(Sort::Array(Boxed::new(alloc, element)?))
            }
        }
    }
}

/// Equal sorts on fresh memory, in the same order.
pub fn copy_sorts(alloc: Global, sorts: &List<Sort>) -> Result<List<Sort>, NoMemory>
    ensures { IfOk result (λ l. l ≡ sorts.now) }
{
    let mut copies = List::new(alloc);
    for sort in sorts.as_slice() {
        copies.push(sort.copy(alloc)?)?;
    }
    Ok(copies)
}

/// Whether the two are the same sort.
#[tactic(auto, using(crate::proofs::SameSort::levels))]
pub fn same_sort(left: &Sort, right: &Sort) -> bool
    ensures { result ≡ same_sort left.now right.now }
{
    match (left, right) {
        (Sort::Bool, Sort::Bool) => true,
        (Sort::Int, Sort::Int) => true,
        (Sort::Data(left), Sort::Data(right)) => *left == *right,
        (Sort::Array(left), Sort::Array(right)) => same_sort(left.get(), right.get()),
        _ => false,
    }
}

/// Whether the two lists have the same sorts in order.
pub fn same_sorts(left: &[Sort], right: &[Sort]) -> bool
    ensures { result ≡ same_sorts left.now right.now }
{
    if left.len() != right.len() {
        return false;
    }
    for (i, sort) in left.iter().enumerate() {
        if !same_sort(sort, &right[i]) {
            return false;
        }
    }
    true
}

/// The depth of a sort, or 2^64 - 1 where it is more; Int has depth 1.
#[tactic(auto, using(crate::proofs::SameSort::depths))]
pub fn sort_depth(sort: &Sort) -> u64
    ensures { result ≡ min (sort_depth sort.now) (2 ^ 64 - 1) }
{
    match sort {
        Sort::Bool | Sort::Int | Sort::Data(_) => 1,
        Sort::Array(element) => sort_depth(element.get()).saturating_add(1),
    }
}
