//! The trees of a text.

use chc_sorts::List;
use chc_source::ByteText;

/// Trees side by side. Contracts see them as the list of the trees.
pub type Trees = List<Tree>;

/// A token, or a group of trees between two parentheses. Each holds its place: the offset in bytes of its first byte,
/// counted from 0 at the text's start.
#[derive(Debug, Drop)]
pub enum Tree {
    /// A symbol that is no reserved word, without the bars that may quote it.
    Symbol(u64, ByteText),
    /// A reserved word, as `let`.
    Word(u64, ByteText),
    /// A keyword, with its colon.
    Keyword(u64, ByteText),
    /// A numeral from 0 to 2^127 - 1.
    Numeral(u64, i128),
    /// A string, without its quotes, and with `"` for each `""` in it.
    Text(u64, ByteText),
    /// A decimal, hexadecimal or binary token, as it is written.
    Other(u64, ByteText),
    /// The trees between a `(`, which stands at the place, and its `)`.
    Group(u64, List<Tree>),
}
