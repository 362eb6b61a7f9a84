//! Scripts: clauses over predicates, as text.
#![tactic(auto)]

mod horn;
mod script;
#[cfg(test)]
mod shown;
mod whole;

pub use horn::{
    HornErr, assertion_of_true_clause, clause_is_well_formed, clause_of, clause_of_true_assertion,
    truth_is_kept,
};
pub use script::Script;
pub use whole::{first_empty_is_found, read_script};
