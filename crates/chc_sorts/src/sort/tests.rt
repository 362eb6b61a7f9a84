//! Sorts that are told apart, and their depth.

use crate::{Boxed, NoMemory, Sort, same_sort, same_sorts, sort_depth};
use std::alloc::Global;
use std::test::Fail;

/// The arrays over a sort.
fn array(alloc: Global, element: Sort) -> Result<Sort, NoMemory> {
    Ok(Sort::Array(Boxed::new(alloc, element)?))
}

fn are_same(left: Sort, right: Sort) -> bool {
    same_sort(&left, &right)
}

fn depth(sort: Sort) -> u64 {
    sort_depth(&sort)
}

/// Whether Int, datatype and Int, datatype are the same lists.
fn are_same_pairs(left: u32, right: u32) -> bool {
    same_sorts(
        &[Sort::Int, Sort::Data(left)],
        &[Sort::Int, Sort::Data(right)],
    )
}

#[test]
fn sorts_are_told_apart(rt: HostRuntime) -> Result<(), Fail> {
    let alloc = rt.alloc();
    assert!(rt; are_same(Sort::Bool, Sort::Bool));
    assert!(rt; are_same(Sort::Data(7), Sort::Data(7)));
    assert!(rt; !are_same(Sort::Data(7), Sort::Data(8)));
    assert!(rt; !are_same(Sort::Int, Sort::Bool));
    assert!(rt; !are_same(array(alloc, Sort::Int)?, Sort::Int));
    assert!(rt; !are_same(Sort::Int, array(alloc, Sort::Int)?));
    assert_eq!(rt; depth(Sort::Int), 1);
    assert_eq!(rt; depth(array(alloc, Sort::Bool)?), 2);
    Ok(())
}

#[test]
fn arrays_are_told_apart(rt: HostRuntime) -> Result<(), Fail> {
    let left = array(rt.alloc(), Sort::Int)?;
    let right = array(rt.alloc(), Sort::Bool)?;
    assert!(rt; !are_same(left, right));
    Ok(())
}

#[test]
fn lists_of_sorts_are_told_apart(rt: HostRuntime) -> Result<(), Fail> {
    assert!(rt; are_same_pairs(3, 3));
    assert!(rt; !are_same_pairs(3, 4));
    assert!(rt; !same_sorts(&[Sort::Int], &[]));
    Ok(())
}
