//! What the names of a signature stand for.

/// A constructor or a selector, by its numbers, each counted from 0.
#[derive(Clone, Copy, Debug, PartialEq, Eq)]
pub enum Meaning {
    /// The numbers of the datatype and the constructor.
    Make(u32, u32),
    /// The numbers of the datatype, the constructor and the field.
    Get(u32, u32, u32),
}
