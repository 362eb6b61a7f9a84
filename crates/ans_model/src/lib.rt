//! Model answers: definitions of predicates, read and written.
#![tactic(auto)]

mod answer;
mod definition;
mod draft;
mod form;
mod names;
mod owners;
mod params;
mod target;
mod text;

pub use answer::read_defs;
pub use text::defs_text;

#[cfg(test)]
mod tests;
