//! The forms of groups that stand for terms.

use crate::head::Head;
use chc_terms::Kind;

/// What the first tree of a group makes of the group.
#[derive(Drop)]
pub enum Form {
    /// A head on the trees behind it.
    Applied(Head),
    /// A constructor without arguments and with its sort: `(as c S)`.
    Alone(Head),
    Let,
    Quantifier(Kind),
    /// A term with attributes: `(! t ..)`.
    Annotated,
}
