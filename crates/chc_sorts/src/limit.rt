//! The limits of what is read and kept.

/// A limit that scripts, clauses and states are held to.
#[derive(Clone, Copy, Debug, PartialEq, Eq)]
pub enum Limit {
    /// At most 16,777,216 bytes in a file that is read.
    L1,
    /// At most 1,000 open parentheses.
    L2,
    /// A sort is at most 16 deep; Int is 1 deep.
    L3,
    /// A term is at most 900 deep.
    L4,
    /// The charge of a clause, and the nodes of a term that is read, are at most 262,144.
    L5,
    /// The charge of a state is at most 4,194,304.
    L6,
    /// At most 65,536 live predicates, with one more counted unless there is exactly one query.
    L7,
    /// A predicate has at most 1,024 positions.
    L8,
    /// At most 65,536 clauses, with one more counted unless there is exactly one query.
    L9,
    /// The width of a clause is at most 4,096.
    L10,
    /// A clause has at most 256 body atoms.
    L11,
    /// At most 1,024 datatypes.
    L12,
    /// A datatype has at most 256 constructors.
    L13,
    /// A constructor has at most 64 fields.
    L14,
    /// The weight of a clause is at most 4,096.
    L15,
    /// A value in range is at most 2,000 deep; a leaf is 1 deep.
    L16,
}
