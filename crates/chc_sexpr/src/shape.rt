//! The shapes of trees.

ghost use Rattle.std.specs.Prelude.{◌≡◌, None, Some, option_copied, MatchOption};
ghost use Rattle.chc_sexpr.specs.Shapes.{symbol_of, word_of, group_of, is_symbol, is_word, form_of, pair_of};

use crate::tree::Tree;

/// The name of a symbol.
pub fn symbol_of(tree: &Tree) -> Option<&[u8]>
    ensures { option_copied result ≡ symbol_of tree.now }
{
    match tree {
        Tree::Symbol(_, name) => Some(name.bytes()),
        _ => None,
    }
}

/// A reserved word.
pub fn word_of(tree: &Tree) -> Option<&[u8]>
    ensures { option_copied result ≡ word_of tree.now }
{
    match tree {
        Tree::Word(_, word) => Some(word.bytes()),
        _ => None,
    }
}

/// Whether the tree is the symbol of that name.
pub fn is_symbol(tree: &Tree, name: &[u8]) -> bool
    ensures { result ≡ is_symbol name.now tree.now }
{
    match tree {
        Tree::Symbol(_, other) => other.bytes() == name,
        _ => false,
    }
}

/// Whether the tree is that reserved word.
pub fn is_word(tree: &Tree, word: &[u8]) -> bool
    ensures { result ≡ is_word word.now tree.now }
{
    match tree {
        Tree::Word(_, other) => other.bytes() == word,
        _ => false,
    }
}

/// The trees of a group.
pub fn group_of(tree: &Tree) -> Option<&[Tree]>
    ensures { option_copied result ≡ group_of tree.now }
{
    match tree {
        Tree::Group(_, trees) => Some(trees.as_slice()),
        _ => None,
    }
}

/// The name and the arguments of a form, which is a group headed by a symbol.
pub fn form_of(tree: &Tree) -> Option<(&[u8], &[Tree])>
    ensures { MatchOption result (form_of tree.now ≡ None) (λ form. form_of tree.now ≡ Some (form.0.now, form.1.now)) }
{
    match group_of(tree)? {
        [] => None,
        [head, args @ ..] => Some((symbol_of(head)?, args)),
    }
}

/// The two arguments of a form of that name.
pub fn pair_of<'a>(tree: &'a Tree, name: &[u8]) -> Option<(&'a Tree, &'a Tree)>
    ensures { MatchOption result (pair_of name.now tree.now ≡ None) (λ pair. pair_of name.now tree.now ≡ Some (pair.0.now, pair.1.now)) }
{
    match form_of(tree)? {
        (head, [left, right]) if head == name => Some((left, right)),
        _ => None,
    }
}
