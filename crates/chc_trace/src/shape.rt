//! The shapes of trees: numbers, strings, and forms of a name.

ghost use Rattle.std.specs.Prelude.{◌≡◌, []};
ghost use Rattle.std.specs.Option.{option_copied};
ghost use Rattle.chc_sexpr.specs.Readings.{Gives};
ghost use Rattle.chc_trace.specs.Numbers.{number_of, numbers_of, one_number};
ghost use Rattle.chc_trace.specs.Readings.{behind_name, only_string, string_behind};

use chc_sexpr::{Tree, form_of};
use chc_sorts::{List, NoMemory};
use std::alloc::Global;

/// The number of a tree that is a numeral of at most 4,294,967,295.
fn number_of(tree: &Tree) -> Option<u32>
    ensures { result ≡ number_of tree.now }
{
    match tree {
        Tree::Numeral(_, number) => u32::try_from(*number).ok(),
        _ => None,
    }
}

/// The number of one tree alone.
pub fn one_number(trees: &[Tree]) -> Option<u32>
    ensures { result ≡ one_number trees.now }
{
    match trees {
        [tree] => number_of(tree),
        [] | [_, _, ..] => None,
    }
}

/// The numbers of trees, any number of them.
pub fn numbers_of(alloc: Global, trees: &[Tree]) -> Result<Option<List<u32>>, NoMemory>
    ensures { Gives result (numbers_of trees.now) }
{
    let mut numbers = List::new(alloc);
    for tree in trees {
        match number_of(tree) {
            Some(number) => numbers.push(number)?,
            None => return Ok(None),
        }
    }
    Ok(Some(numbers))
}

/// The bytes of one tree alone that is a string.
fn only_string(trees: &[Tree]) -> Option<&[u8]>
    ensures { option_copied result ≡ only_string trees.now }
{
    match trees {
        [Tree::Text(_, text)] => Some(text.bytes()),
        _ => None,
    }
}

/// What stands behind the symbol of that name in a group that begins with it.
pub fn behind_name<'a>(tree: &'a Tree, name: &[u8]) -> Option<&'a [Tree]>
    ensures { option_copied result ≡ behind_name name.now tree.now }
{
    match form_of(tree)? {
        (head, trees) if head == name => Some(trees),
        _ => None,
    }
}

/// The string that stands alone behind that symbol.
pub fn string_behind<'a>(tree: &'a Tree, name: &[u8]) -> Option<&'a [u8]>
    ensures { option_copied result ≡ string_behind name.now tree.now }
{
    only_string(behind_name(tree, name)?)
}
