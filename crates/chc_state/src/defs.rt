//! Lists of definitions.

use chc_sorts::{List, Sort};
use chc_terms::Term;

/// A definition: a term over parameters, which are its variables.
#[derive(Debug, Drop)]
pub struct Def {
    /// The sorts of the parameters, which are numbered from 0.
    pub params: List<Sort>,
    /// The sort of the body.
    pub result: Sort,
    pub body: Term,
}

/// Definitions, each of which calls earlier ones alone, and the predicates that they define.
#[derive(Debug, Drop)]
pub struct Defs {
    pub list: List<Def>,
    /// For each predicate the number of its definition, if it has one.
    pub of: List<Option<u64>>,
}
