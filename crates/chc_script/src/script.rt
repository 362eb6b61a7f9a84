//! What a script stands for.

use chc_sorts::List;
use chc_state::{Names, State};
use chc_terms::Term;

/// What a script stands for: the state, the names of its predicates by number, and its assertions. Clause k
/// of the state is that of assertion k.
#[derive(Debug, Drop)]
pub struct Script {
    pub state: State,
    pub names: Names,
    pub assertions: List<Term>,
}
