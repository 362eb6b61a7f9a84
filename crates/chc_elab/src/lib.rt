//! Terms from trees: what a tree of a script or an answer stands for, or its first fault.
#![tactic(auto)]

mod binding;
mod bound;
mod build_err;
mod built;
mod census;
mod counting;
mod elaboration;
mod form;
mod forming;
mod frame;
mod head;
mod joining;
mod joint;
mod laws;
mod layers;
mod operation;
mod pile;
mod place;
mod reading;
mod scope;
mod sort_tree;
mod sorted_term;
mod sorting;
mod symbols;
#[cfg(test)]
mod tests;
mod typed;

pub use census::trees_in;
pub use elaboration::{elab, elab_sorted};
pub use laws::{
    what_is_answered_stands, what_is_read_is_said, what_is_read_is_well_sorted,
    what_is_read_stands, what_stands_is_one, what_stands_is_read,
};
pub use place::{fault, named_fault, place_of};
pub use scope::Scope;
pub use sort_tree::{sort_of_tree, sort_spec};
pub use sorted_term::SortedTerm;
pub use symbols::{Symbol, Symbols};
