//! What a reader of trees has read so far.

ghost use Rattle.std.specs.Prelude.{◌≡◌, ◌<◌, [], ◌∷◌, ◌++◌, length, OnOk};
ghost use Rattle.chc_sexpr.specs.Drafts.{Closes};

use crate::tree::{Tree, Trees};
use chc_sorts::{List, NoMemory};
use std::alloc::Global;
use std::mem;

/// A group whose `(` has been read, and whose `)` has not.
#[derive(Drop)]
pub struct OpenGroup {
    /// The place of its `(`.
    pub place: u64,
    /// The trees that stand before it in the group around it.
    pub before: Trees,
}

/// The same trees, with no room to spare.
fn without_room(trees: Trees) -> Trees
    ensures { result ≡ trees }
{
    let mut items = trees.into_vec();
    items.shrink_to_fit();
    List::from_vec(items)
}

/// Adds a tree at the end. The first two get no room to spare, since most groups are short: the places that a short list
/// has too many are lost between the lists behind it.
fn add_tree(alloc: Global, trees: &mut Trees, tree: Tree) -> Result<(), NoMemory>
    ensures { OnOk result (trees.new ≡ trees.old ++ tree ∷ []) }
{
    if trees.len() < 2 {
        make_room(alloc, trees)?;
    }
    trees.push(tree)?;
    Ok(())
}

/// Makes room for one tree more.
fn make_room(alloc: Global, trees: &mut Trees) -> Result<(), NoMemory>
    ensures { OnOk result (trees.new ≡ trees.old) }
{
    let mut items = mem::replace(trees, List::new(alloc)).into_vec();
    items.reserve_exact(1)?;
    *trees = List::from_vec(items);
    Ok(())
}

/// The groups that are open, outermost first, and the trees of the innermost so far.
#[derive(Drop)]
pub struct Draft {
    pub groups: List<OpenGroup>,
    pub trees: Trees,
}

impl Draft {
    /// Nothing read.
    pub fn new(alloc: Global) -> Draft
        ensures groups { result.groups ≡ [] }
        ensures trees { result.trees ≡ [] }
    {
        Draft {
            groups: List::new(alloc),
            trees: List::new(alloc),
        }
    }

    /// Reads a `(`.
    pub fn open(&mut self, alloc: Global, place: u64) -> Result<(), NoMemory>
        ensures groups { OnOk result (self.new.groups ≡ self.old.groups ++ record { place = place; before = self.old.trees } ∷ []) }
        ensures trees { OnOk result (self.new.trees ≡ []) }
    {
        let before = mem::replace(&mut self.trees, List::new(alloc));
        self.groups.push(OpenGroup { place, before })?;
        Ok(())
    }

    /// Reads a `)`.
    pub fn close(&mut self, alloc: Global) -> Result<(), NoMemory>
        requires { 0 < length self.old.groups }
        ensures { OnOk result (Closes self.old self.new) }
    {
        if let Some(OpenGroup { place, before }) = self.groups.pop() {
            let inner = mem::replace(&mut self.trees, before);
            let group = Tree::Group(place, without_room(inner));
            add_tree(alloc, &mut self.trees, group)?;
        }
        Ok(())
    }

    /// Reads a tree that is a token.
    pub fn add(&mut self, alloc: Global, tree: Tree) -> Result<(), NoMemory>
        ensures groups { OnOk result (self.new.groups ≡ self.old.groups) }
        ensures trees { OnOk result (self.new.trees ≡ self.old.trees ++ tree ∷ []) }
    {
        add_tree(alloc, &mut self.trees, tree)
    }
}
