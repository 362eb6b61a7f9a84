//! The texts that are read.

use std::alloc::{AllocError, Global};

/// How many groups a nest has: as many as may be open at once.
const NEST: u32 = 1000;

/// How many bytes a nest has.
const NEST_BYTES: u32 = 3000;

/// How many variables the comparisons are on.
const VARIABLES: u32 = 16;

/// Adds the piece so many times.
fn add_times(text: &mut String, piece: &str, times: u32) -> Result<(), AllocError> {
    for _ in 0..times {
        text.push_str(piece)?;
    }
    Ok(())
}

/// The text of so many groups `(a)` side by side.
pub fn groups(alloc: Global, count: u32) -> Result<String, AllocError> {
    let mut text = String::new(alloc);
    add_times(&mut text, "(a)", count)?;
    Ok(text)
}

/// Adds a nest: groups `(a(a(a ..)))`, of which each has an `a` and the next one.
fn add_nest(text: &mut String) -> Result<(), AllocError> {
    add_times(text, "(a", NEST)?;
    add_times(text, ")", NEST)
}

/// The text of as many nests side by side as so many bytes hold.
pub fn nests(alloc: Global, bytes: u32) -> Result<String, AllocError> {
    let mut text = String::new(alloc);
    for _ in 0..bytes / NEST_BYTES {
        add_nest(&mut text)?;
    }
    Ok(text)
}

/// Adds the pairs `(x0 Int)(x1 Int) ..` of a list of binders.
fn add_binders(text: &mut String) -> Result<(), AllocError> {
    for i in 0..VARIABLES {
        write!(text, "(x{i} Int)")?;
    }
    Ok(())
}

/// Adds so many comparisons ` (<= x0 x0) (<= x1 x0) ..`, which go through the pairs of variables.
fn add_comparisons(text: &mut String, count: u32) -> Result<(), AllocError> {
    for i in 0..count {
        let left = i % VARIABLES;
        let right = i / VARIABLES % VARIABLES;
        write!(text, " (<= x{left} x{right})")?;
    }
    Ok(())
}

/// The text of a term: for all integers of 16 names, `true` and so many comparisons hold.
pub fn comparisons(alloc: Global, count: u32) -> Result<String, AllocError> {
    let mut text = String::from_str(alloc, "(forall (")?;
    add_binders(&mut text)?;
    text.push_str(") (and true")?;
    add_comparisons(&mut text, count)?;
    text.push_str("))")?;
    Ok(text)
}
