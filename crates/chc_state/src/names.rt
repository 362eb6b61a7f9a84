//! Names of predicates.

use chc_sorts::{List, Name};

/// The names of a state's predicates, by number.
pub type Names = List<Name>;
