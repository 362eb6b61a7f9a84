//! The texts of scripts, terms and values, and the parts that other texts have in common with them: names as symbols,
//! sorts, variables and terms.
#![tactic(auto)]

mod datatypes;
mod helpers;
mod naming;
mod prefix;
mod reach;
mod script;
mod text;
mod value;

pub use helpers::{helper_names, predicate_names};
pub use naming::Naming;
pub use prefix::{used_names, variable_prefix};
pub use script::{script_text, term_text};
pub use text::{write_binders, write_sort, write_term};
pub use value::value_text;

#[cfg(test)]
mod tests;
