//! Terms that are read, with their sorts.

use chc_sorts::Sort;
use chc_terms::Term;

/// A term and its sort.
#[derive(Debug, Drop)]
pub struct SortedTerm {
    pub term: Term,
    pub sort: Sort,
}
