//! Ways to join two terms.

use chc_sorts::Op;

/// How two terms are joined.
#[derive(Debug, Drop)]
pub enum Joint {
    /// The operator on the two.
    Pair(Op),
    /// The operator on the two, the second one first.
    Turned(Op),
    /// That they aren't equal.
    Differ,
}
