//! The scripts that are read.

use std::alloc::{AllocError, Global};

/// What a chain has at its ends.
#[derive(Debug, Clone, Copy)]
pub enum Ends {
    /// A clause that begins it, and a query on its last predicate: nothing can be removed.
    Both,
    /// A query alone, so that no derivation reaches a predicate.
    Last,
    /// A clause that begins it alone, so that no query needs a predicate.
    First,
}

/// Adds the declarations of so many predicates on two integers.
fn add_predicates(text: &mut String, count: u32) -> Result<(), AllocError> {
    for i in 0..count {
        write!(text, "(declare-fun p{i} (Int Int) Bool)\n")?;
    }
    Ok(())
}

/// Adds the clause that begins the chain, where there is one.
fn add_first(text: &mut String, ends: Ends) -> Result<(), AllocError> {
    match ends {
        Ends::Both | Ends::First => text.push_str("(assert (p0 0 0))\n"),
        Ends::Last => Ok(()),
    }
}

/// Adds the clause from the predicate of the number to the next one.
fn add_link(text: &mut String, i: u32) -> Result<(), AllocError> {
    let next = i.saturating_add(1);
    write!(
        text,
        "(assert (forall ((x Int) (y Int)) (=> (and (p{i} x y) (<= x {i})) (p{next} (+ x 1) y))))\n"
    )
}

/// Adds the query on the predicate of the number, where there is one.
fn add_query(text: &mut String, ends: Ends, last: u32) -> Result<(), AllocError> {
    match ends {
        Ends::Both | Ends::Last => write!(
            text,
            "(assert (forall ((x Int) (y Int)) (=> (and (p{last} x y) (< x y)) false)))\n"
        ),
        Ends::First => Ok(()),
    }
}

/// The script of a chain of so many predicates, with a clause from each to the next, and these ends.
pub fn chain(alloc: Global, ends: Ends, count: u32) -> Result<String, AllocError> {
    let mut text = String::from_str(alloc, "(set-logic HORN)\n")?;
    let last = count.saturating_sub(1);
    add_predicates(&mut text, last.saturating_add(1))?;
    add_first(&mut text, ends)?;
    for i in 0..last {
        add_link(&mut text, i)?;
    }
    add_query(&mut text, ends, last)?;
    text.push_str("(check-sat)\n")?;
    Ok(text)
}
