//! Atoms, clauses and declared predicates.

use chc_sorts::{List, Sort};
use chc_terms::Term;

/// A predicate on terms.
#[derive(Debug, Drop)]
pub struct Atom {
    /// The predicate's number.
    pub pred: u32,
    pub args: List<Term>,
}

/// A constrained Horn clause: for all values of the variables, if the conjuncts and the body atoms
/// hold, then so does the head. A clause without a head is a query.
#[derive(Debug, Drop)]
pub struct Clause {
    /// The sorts of the variables, which are numbered from 0.
    pub vars: List<Sort>,
    pub conj: List<Term>,
    pub body: List<Atom>,
    pub head: Option<Atom>,
    /// How many of a script's clauses a use of this clause stands for at most.
    pub weight: u32,
}

/// A declared predicate. It keeps its number for good; one that was removed isn't live.
#[derive(Debug, Drop)]
pub struct PredDecl {
    /// The sorts of its positions.
    pub sorts: List<Sort>,
    pub live: bool,
}
