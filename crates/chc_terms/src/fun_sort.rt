//! The sorts of definitions.

use chc_sorts::{List, Sort};

/// The sorts that a definition has: those of its parameters in order, and that of its result.
#[derive(Debug, Drop)]
pub struct FunSort {
    pub params: List<Sort>,
    pub result: Sort,
}
