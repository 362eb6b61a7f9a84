//! Slicing: steps that remove whole predicates. What no derivation reaches goes (reachability forwards,
//! from the clauses without body atoms), and so does what no query needs (reachability backwards, from
//! the queries). The answer stays the same.
#![tactic(auto)]

mod choice;
mod kinds;
mod sets;
mod sliced;
#[cfg(test)]
mod tests;
mod unneeded;
mod unreached;
mod void;

pub use kinds::{Unneeded, Unreached, Void};
pub use sliced::{Removed, Sliced};
