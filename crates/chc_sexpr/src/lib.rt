//! Trees of tokens: what a script, a trace or an answer is before it is understood.
#![tactic(auto)]

mod draft;
mod fault;
mod kind;
mod shape;
mod symbol;
mod text;
mod token;
mod tree;
mod write;

pub use fault::{Fault, TextErr, TextFault};
pub use shape::{form_of, group_of, is_symbol, is_word, pair_of, symbol_of, word_of};
pub use symbol::{is_bare, write_symbol};
pub use text::{first_fault_is_one, read_trees};
pub use token::{is_reserved, is_simple_symbol};
pub use tree::{Tree, Trees};
pub use write::{write_tree, written_is_read_again};

#[cfg(test)]
mod tests;
