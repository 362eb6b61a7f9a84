//! Places of trees, and faults that stand at them.

ghost use Rattle.std.specs.Prelude.{◌≡◌, []};
ghost use Rattle.chc_sexpr.specs.declared.tree.Tree.{out-Tree};
ghost use Rattle.chc_elab.specs.Heads.{unsupported};
ghost use Rattle.chc_elab.specs.Sites.{Tells, faulty};
ghost use Rattle.chc_elab.specs.SortTrees.{place_at};

use chc_sexpr::{Fault, TextErr, TextFault, Tree, write_tree};
use chc_source::ByteText;
use std::alloc::Global;

/// Where the tree stands.
pub fn place_of(tree: &Tree) -> u64
    ensures { result ≡ place_at (out-Tree tree.now) }
{
    match tree {
        Tree::Symbol(place, _)
        | Tree::Word(place, _)
        | Tree::Keyword(place, _)
        | Tree::Numeral(place, _)
        | Tree::Text(place, _)
        | Tree::Other(place, _)
        | Tree::Group(place, _) => *place,
    }
}

/// A fault at a place, about no name.
pub fn fault<T>(alloc: Global, place: u64, fault: Fault) -> Result<T, TextErr>
    ensures { Tells result (faulty place fault []) }
{
    Err(TextErr::At(TextFault {
        place,
        fault,
        name: ByteText::new(alloc),
    }))
}

/// A fault at a place, about a name.
pub fn named_fault<T>(alloc: Global, place: u64, fault: Fault, name: &[u8]) -> Result<T, TextErr>
    ensures { Tells result (faulty place fault name.now) }
{
    let mut text = ByteText::new(alloc);
    text.extend(name)?;
    Err(TextErr::At(TextFault {
        place,
        fault,
        name: text,
    }))
}

/// The fault of a form that isn't read, about its text.
pub fn unsupported<T>(alloc: Global, tree: &Tree) -> Result<T, TextErr>
    ensures { Tells result (unsupported tree.now) }
{
    let mut text = ByteText::new(alloc);
    write_tree(tree, &mut text)?;
    Err(TextErr::At(TextFault {
        place: place_of(tree),
        fault: Fault::NotSupported,
        name: text,
    }))
}
