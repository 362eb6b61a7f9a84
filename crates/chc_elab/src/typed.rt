//! Terms with their sorts.

use crate::built::Built;
use chc_sorts::Sort;

/// A term and its sort.
#[derive(Drop)]
pub struct Typed {
    pub term: Built,
    pub sort: Sort,
}
